// Features whose alternates name a kept lookup.
ghost use Rattle.std.specs.Prelude.{◌≡◌, length};
ghost use Rattle.source.specs.Questions.{variation_record, variation_records, substitution_record, substitution_records};
ghost use Rattle.numbering.specs.Sets.{any};
ghost use Rattle.numbering.specs.Stages.{is_unreadable, unread_substitution, names_alternate, alternates_unread, alternate_kept};

use crate::subset::Subset;
use source::{FeaturePlace, Source, Standing};

// How many variations there are.
fn variation_count<S: Source>(source: &S) -> u32
    ensures { result ≡ length (variation_records (S.reading source.now).variations) }
{
    source.variations().there().map_or(0, |v| v.count)
}

// How many substitution records a variation has.
fn substitution_count<S: Source>(source: &S, at: u32) -> u16
    ensures { result ≡ length (substitution_records (variation_record (S.reading source.now) at).substitution) }
{
    source.substitution(at).there().map_or(0, |s| s.count)
}

// Whether the alternate of a substitution record cannot be read.
fn unread_alternate<S: Source>(source: &S, at: u32, k: u16) -> bool
    ensures { result ≡ is_unreadable (substitution_record (S.reading source.now) at k).alternate }
{
    source
        .feature(FeaturePlace::Alternate {
            variation: at,
            substitution: k,
        })
        .is_unreadable()
}

// Whether a variation's substitution table, or an alternate of it, cannot be read.
fn unread_substitution<S: Source>(source: &S, at: u32) -> bool
    ensures { result ≡ unread_substitution (variation_record (S.reading source.now) at) }
{
    // Asked for once: this is done for every variation of a table, whatever is kept.
    match source.substitution(at) {
        Standing::Absent => false,
        Standing::Unreadable => true,
        Standing::There(found) => (0..found.count).any(|k| unread_alternate(source, at, k)),
    }
}

// Whether a substitution table or an alternate cannot be read, so that no alternate counts.
pub(crate) fn alternates_unread<S: Source>(source: &S) -> bool
    ensures { result ≡ alternates_unread (S.reading source.now) }
{
    (0..variation_count(source)).any(|at| unread_substitution(source, at))
}

impl<'a, 'b, S: Source> Subset<'a, 'b, S> {
    // Whether a substitution record gives a feature an alternate that names a kept lookup.
    fn names_alternate(&self, at: u32, k: u16, i: u16) -> bool
        ensures { result ≡ names_alternate self.now.lookups.items.now i (substitution_record (S.reading self.now.source.now) at k) }
    {
        let place = FeaturePlace::Alternate {
            variation: at,
            substitution: k,
        };
        self.source.substituted_index(at, k) == Some(i) && self.feature_intersects_lookups(place)
    }

    // Whether a variation gives a feature an alternate that names a kept lookup.
    fn substitution_names(&self, at: u32, i: u16) -> bool
        ensures { result ≡ any (names_alternate self.now.lookups.items.now i) (substitution_records (variation_record (S.reading self.now.source.now) at).substitution) }
    {
        (0..substitution_count(self.source, at)).any(|k| self.names_alternate(at, k, i))
    }

    // Whether some alternate of a feature names a kept lookup.
    pub(crate) fn alternate_kept(&self, i: u16) -> bool
        ensures { result ≡ alternate_kept (S.reading self.now.source.now) self.now.lookups.items.now i }
    {
        (0..variation_count(self.source)).any(|at| self.substitution_names(at, i))
    }
}
