// The sets that are kept, as words give them.
ghost use Rattle.std.specs.Prelude.{ℕ, ◌≤◌, length, IfOk};
ghost use Rattle.keys.specs.Slots.{Ascending};
ghost use Rattle.numbering.specs.Numbering.{Kept};

use crate::faults::Untold;
use crate::named::{all_features, all_lookups, all_scripts};
use console::SetWords;
use kept::{Part, Run, Unread, read_set};
use keys::Tag;
use numbering::{MAX_FEATURES, MAX_LOOKUPS, MAX_SCRIPTS};
use source::Source;
use std::alloc::{AllocError, Global};

// The lookups, features and script tags that are kept. That `keep` gives kept sets is its clause and no fact of the type,
// so that whoever has them may change them.
#[derive(Drop)]
pub struct KeptSets {
    pub lookups: Vec<u16>,
    pub features: Vec<u16>,
    pub scripts: Vec<Tag>,
}

// One of the sets: what a part of its list is, how many it may have, what `all` means, and what is wrong with a word.
trait Choice {
    type Part: Part;

    const MOST: usize;

    ghost MOST: { ℕ };

    fn all<S: Source>(
        heap: Global,
        source: &S,
    ) -> Result<Vec<<Self::Part as Part>::Key>, AllocError>
        ensures { IfOk result (λ v. Ascending Self.Part.Key.before v.items) };

    fn not_listed(word: &str) -> Untold<'_>;

    fn too_many<'a>(count: usize) -> Untold<'a>;
}

struct Lookups;

impl Choice for Lookups {
    type Part = Run;

    const MOST: usize = MAX_LOOKUPS;

    ghost MOST = { 1024 };

    fn all<S: Source>(heap: Global, source: &S) -> Result<Vec<u16>, AllocError> {
        all_lookups(heap, source)
    }

    fn not_listed(word: &str) -> Untold<'_> {
        Untold::NotLookups(word)
    }

    fn too_many<'a>(count: usize) -> Untold<'a> {
        Untold::TooManyLookups(count)
    }
}

struct Features;

impl Choice for Features {
    type Part = Run;

    const MOST: usize = MAX_FEATURES;

    ghost MOST = { 512 };

    fn all<S: Source>(heap: Global, source: &S) -> Result<Vec<u16>, AllocError> {
        all_features(heap, source)
    }

    fn not_listed(word: &str) -> Untold<'_> {
        Untold::NotFeatures(word)
    }

    fn too_many<'a>(count: usize) -> Untold<'a> {
        Untold::TooManyFeatures(count)
    }
}

struct Scripts;

impl Choice for Scripts {
    type Part = Tag;

    const MOST: usize = MAX_SCRIPTS;

    ghost MOST = { 64 };

    fn all<S: Source>(heap: Global, source: &S) -> Result<Vec<Tag>, AllocError> {
        all_scripts(heap, source)
    }

    fn not_listed(word: &str) -> Untold<'_> {
        Untold::NotScripts(word)
    }

    fn too_many<'a>(count: usize) -> Untold<'a> {
        Untold::TooManyScripts(count)
    }
}

// The set that a word gives: all, none, or those that it lists.
fn keep_set<'a, C: Choice, S: Source>(
    heap: Global,
    source: &S,
    word: &'a str,
) -> Result<Vec<<C::Part as Part>::Key>, Untold<'a>>
    ensures ascending { IfOk result (λ v. Ascending C.Part.Key.before v.items) }
    ensures few { IfOk result (λ v. length v.items ≤ C.MOST) }
{
    let set = match word {
        "all" => C::all(heap, source)?,
        "none" => Vec::new(heap),
        list => match read_set::<C::Part>(heap, list) {
            Ok(set) => set,
            Err(Unread::Memory) => return Err(Untold::Memory),
            Err(Unread::WrongPart) => return Err(C::not_listed(word)),
        },
    };
    if set.len() > C::MOST {
        return Err(C::too_many(set.len()));
    }
    Ok(set)
}

// The kept sets that three words give for a table.
pub fn keep<'a, S: Source>(
    heap: Global,
    source: &S,
    words: SetWords<'a>,
) -> Result<KeptSets, Untold<'a>>
    ensures { IfOk result (λ k. Kept k.lookups.items k.features.items k.scripts.items) }
{
    let lookups = keep_set::<Lookups, S>(heap, source, words.lookups)?;
    let features = keep_set::<Features, S>(heap, source, words.features)?;
    let scripts = keep_set::<Scripts, S>(heap, source, words.scripts)?;
    Ok(KeptSets {
        lookups,
        features,
        scripts,
    })
}
