ghost use Rattle.rows.specs.Held.{Opened};

use crate::row::{FeatureRow, LangSysRow, ScriptRow};
use source::{Kind, Refusal};

// The most rows of each kind, and the most numbers of the pool.
pub(crate) const MOST_ROWS: usize = 4096;

const MOST_NUMBERS: usize = 32768;

// The rows of a layout table, with the pool of numbers that their ranges lie in.
#[derive(Clone, Copy)]
pub struct Rows<'a> {
    pub(crate) kind: Kind,
    pub(crate) features: &'a [FeatureRow],
    pub(crate) systems: &'a [LangSysRow],
    pub(crate) scripts: &'a [ScriptRow],
    pub(crate) pool: &'a [u16],
}

impl<'a> Rows<'a> {
    // The source over the given rows, unless one slice is over its capacity.
    #[tactic(auto, using(crate::proofs::Readings::all_taken))]
    pub fn open(
        kind: Kind,
        features: &'a [FeatureRow],
        systems: &'a [LangSysRow],
        scripts: &'a [ScriptRow],
        pool: &'a [u16],
    ) -> Result<Rows<'a>, Refusal>
        ensures { Opened kind features.now systems.now scripts.now pool.now result }
    {
        if features.len() > MOST_ROWS
            || systems.len() > MOST_ROWS
            || scripts.len() > MOST_ROWS
            || pool.len() > MOST_NUMBERS
        {
            return Err(Refusal::SourceTooLarge);
        }
        Ok(Rows {
            kind,
            features,
            systems,
            scripts,
            pool,
        })
    }
}
