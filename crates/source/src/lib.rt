// What a layout table (GSUB or GPOS) says, asked for part by part, without saying where it lies.
#![tactic(auto)]

mod kinds;
mod parts;
mod questions;
mod refusals;

pub use kinds::{Kind, UnknownKind};
pub use parts::{
    Condition, FeatureParams, FeaturePlace, LangSys, LangSysPlace, Standing, Substitution,
    Variations,
};
pub use questions::Source;
pub use refusals::Refusal;
