// What is told of kept features.
use crate::choices::KeptSets;
use crate::fates::{Fate, fate_of};
use console::Page;
use keys::{Tag, contains};
use numbering::Numbering;
use source::{FeaturePlace, Source, Standing};
use std::alloc::AllocError;

// This feature survives unread.
const PREF: Tag = Tag { code: 0x7072_6566 };

// The kept features of a table with what is kept, their numbering, and the first of them that cannot be read.
#[derive(Drop)]
pub(crate) struct Account<'a, S> {
    pub(crate) source: &'a S,
    pub(crate) sets: &'a KeptSets,
    pub(crate) numbering: &'a Numbering,
    pub(crate) unread: Option<u16>,
}

// The first kept feature that cannot be read, which ends the first stage.
pub(crate) fn first_unread<S: Source>(source: &S, features: &[u16]) -> Option<u16> {
    for feature in features {
        let place = FeaturePlace::Listed { feature: *feature };
        if source.feature(place).is_unreadable() && source.feature_tag(*feature) != PREF {
            return Some(*feature);
        }
    }
    None
}

fn write_number(page: &mut Page, number: u16, like: Option<u16>) -> Result<(), AllocError> {
    match like {
        Some(earlier) => writeln!(
            page,
            " number {number}, that of feature {earlier}: same tag, same kept lookups"
        ),
        None => writeln!(page, " number {number}"),
    }
}

impl<'a, S: Source> Account<'a, S> {
    // The kept lookups of a feature.
    fn write_kept_lookups(&self, page: &mut Page, place: FeaturePlace) -> Result<(), AllocError> {
        let mut before: u16 = 0;
        for k in 0..self.source.feature(place).count() {
            if let Some(lookup) = self.source.lookup(place, k) {
                if contains(self.sets.lookups.as_slice(), lookup) {
                    if before == 0 {
                        page.put(" kept lookups")?;
                    }
                    page.item(before, lookup)?;
                    before = before.saturating_add(1);
                }
            }
        }
        page.put(if before == 0 {
            " no kept lookups;"
        } else {
            ";"
        })
    }

    // Why a feature does not survive.
    fn write_dropped(&self, page: &mut Page, index: u16) -> Result<(), AllocError> {
        match self.source.feature(FeaturePlace::Listed { feature: index }) {
            Standing::Absent => page.line(" dropped: there is no such feature"),
            Standing::Unreadable => page.line(" dropped: it cannot be read"),
            Standing::There(_) => match self.unread {
                Some(first) if first < index => writeln!(
                    page,
                    " dropped: not looked at, since feature {first} cannot be read"
                ),
                _ => page.line(" dropped: neither it nor an alternate of it names a kept lookup"),
            },
        }
    }

    // A kept feature: its index and tag, its kept lookups, and what becomes of it.
    fn write_feature(&self, page: &mut Page, index: u16) -> Result<(), AllocError> {
        let tag = self.source.feature_tag(index);
        write!(page, "  {index} {tag}:")?;
        self.write_kept_lookups(page, FeaturePlace::Listed { feature: index })?;
        match fate_of(self.numbering, index) {
            Fate::Dropped => self.write_dropped(page, index),
            Fate::Unread => {
                page.line(" dropped: it, or a surviving feature before it, cannot be read")
            }
            Fate::Unnamed => page.line(" dropped: no collected language system names it"),
            Fate::Numbered { number, like } => write_number(page, number, like),
        }
    }

    // The kept features.
    pub(crate) fn write_features(&self, page: &mut Page) -> Result<(), AllocError> {
        for index in self.sets.features.as_slice() {
            self.write_feature(page, *index)?;
        }
        Ok(())
    }
}
