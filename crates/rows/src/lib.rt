// A layout table that lies in given rows, and the built-in font.
#![tactic(auto)]

mod answers;
mod font;
mod ranges;
mod row;
mod slices;
#[cfg(test)]
mod tests;

pub use font::builtin;
pub use row::{FeatureRow, LangSysRow, ScriptRow};
pub use slices::Rows;
