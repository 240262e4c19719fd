ghost use Rattle.std.specs.Prelude.{◌≡◌, Some};
ghost use Rattle.hub.specs.Names.{feature_text};

use crate::fields::write_params;
use crate::show::Shown;
use console::Counted;
use source::{FeaturePlace, Source, Standing};
use std::alloc::AllocError;
use std::fmt;

// A feature's index and its tag.
#[derive(Drop)]
pub(crate) struct FeatureName<'a, S> {
    pub(crate) source: &'a S,
    pub(crate) index: u16,
}

impl<'a, S: Source> fmt::Display for FeatureName<'a, S> {
    ghost output = { λ n. Some (feature_text (S.Source.reading n.source.now) n.index) };

    fn fmt<W: fmt::Write>(&self, f: &mut fmt::Formatter<W>) -> fmt::Result {
        let index = self.index;
        if index < self.source.feature_list().count() {
            let tag = self.source.feature_tag(index);
            write!(f, "{index} {tag}")
        } else {
            write!(f, "{index} no such feature")
        }
    }
}

impl<'a, S: Source> Shown<'a, S> {
    // The feature at an index of the table that is shown.
    pub(crate) fn feature_name(&self, index: u16) -> FeatureName<'a, S>
        ensures source { result.source.now ≡ self.now.source.now }
        ensures index { result.index ≡ index }
    {
        FeatureName {
            source: self.source,
            index,
        }
    }

    pub(crate) fn write_features(&mut self) -> Result<(), AllocError> {
        let list = self.source.feature_list();
        let count = Counted {
            list,
            thing: "feature",
        };
        writeln!(self.page, "Feature list: {count}")?;
        for at in 0..list.count() {
            let tag = self.source.feature_tag(at);
            write!(self.page, "  {at} {tag}:")?;
            self.write_feature(FeaturePlace::Listed { feature: at })?;
        }
        Ok(())
    }

    // A feature's lookups, and its parameters on a line below.
    pub(crate) fn write_feature(&mut self, place: FeaturePlace) -> Result<(), AllocError> {
        let count = match self.source.feature(place) {
            Standing::Absent => return self.page.line(" absent"),
            Standing::Unreadable => return self.page.line(" unreadable"),
            Standing::There(count) => count,
        };
        let params = self.source.params(place);
        if params == Standing::Absent {
            self.page.put(" no parameters;")?;
        }
        self.write_lookups(place, count)?;
        write_params(&mut self.page, params)
    }

    fn write_lookups(&mut self, place: FeaturePlace, count: u16) -> Result<(), AllocError> {
        self.page.put(if count == 0 {
            " no lookups"
        } else {
            " lookups"
        })?;
        for k in 0..count {
            if let Some(lookup) = self.source.lookup(place, k) {
                self.page.item(k, lookup)?;
            }
        }
        self.page.end()
    }
}
