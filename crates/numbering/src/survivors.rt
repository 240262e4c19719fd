// The kept features that survive.
ghost use Rattle.std.specs.Prelude.{◌≡◌, ◌≤◌, length, take};
ghost use Rattle.source.specs.Questions.{feature, params_of};
ghost use Rattle.source.specs.declared.parts.FeaturePlace.TheVariants.{Listed};
ghost use Rattle.numbering.specs.Stages.{is_absent, sized, wanted, judged, alternates_unread, survivors};

use crate::alternates::alternates_unread;
use crate::subset::Subset;
use keys::Tag;
use source::{FeaturePlace, Source, Standing};

const PREF: Tag = Tag { code: 0x7072_6566 };

const SIZE: Tag = Tag { code: 0x7369_7a65 };

// Whether a listed feature has no parameters.
fn has_no_params<S: Source>(source: &S, i: u16) -> bool
    ensures { result ≡ is_absent (params_of (feature (S.reading source.now) (Listed i))) }
{
    matches!(
        source.params(FeaturePlace::Listed { feature: i }),
        Standing::Absent
    )
}

// Whether a feature is `size` with parameters.
fn is_sized<S: Source>(source: &S, i: u16) -> bool
    ensures { result ≡ sized (S.reading source.now) i }
{
    source.feature_tag(i) == SIZE && !has_no_params(source, i)
}

impl<'a, 'b, S: Source> Subset<'a, 'b, S> {
    // Whether a feature that can be read survives.
    fn is_wanted(&self, unread: bool, i: u16) -> bool
        requires { unread ≡ alternates_unread (S.reading self.now.source.now) }
        ensures { result ≡ wanted (S.reading self.now.source.now) self.now.lookups.items.now i }
    {
        is_sized(self.source, i)
            || self.feature_intersects_lookups(FeaturePlace::Listed { feature: i })
            || (!unread && self.alternate_kept(i))
    }

    // Whether a kept feature survives. One that is absent does not, and `pref` does unread.
    fn judge(&self, unread: bool, i: u16) -> Standing<bool>
        requires { unread ≡ alternates_unread (S.reading self.now.source.now) }
        ensures { result ≡ judged (S.reading self.now.source.now) self.now.lookups.items.now i }
    {
        let is_pref = self.source.feature_tag(i) == PREF;
        match self.source.feature(FeaturePlace::Listed { feature: i }) {
            Standing::Absent => Standing::There(false),
            Standing::Unreadable => {
                if is_pref {
                    Standing::There(true)
                } else {
                    Standing::Unreadable
                }
            }
            Standing::There(_) => Standing::There(is_pref || self.is_wanted(unread, i)),
        }
    }

    // Writes the kept features that survive, ascending, and answers how many there are. The first that cannot be read
    // ends the stage with what survived so far.
    #[tactic(auto, using(crate::proofs::Surviving::survival))]
    pub(crate) fn prune_features(&self, features: &[u16], out: &mut [u16]) -> usize
        requires { length features.now ≤ length out.old }
        ensures count { result ≤ length features.now }
        ensures list { take result out.new ≡ survivors (S.reading self.now.source.now) self.now.lookups.items.now features.now }
    {
        let unread = alternates_unread(self.source);
        // The place to write at is counted, since the slice is lent.
        let mut n = 0;
        for i in features {
            let Standing::There(survives) = self.judge(unread, *i) else {
                return n;
            };
            if survives {
                out[n] = *i;
                n += 1;
            }
        }
        n
    }
}
