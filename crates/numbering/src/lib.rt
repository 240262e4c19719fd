// Which features of a layout table are retained, and under which numbers.
#![tactic(auto)]

mod alternates;
mod chains;
mod duplicates;
mod equals;
mod filled;
mod joins;
mod matches;
mod number;
mod remap;
mod sequence;
mod sets;
mod subset;
mod survivors;
mod systems;
mod walk;

pub use filled::{Filled, Indices, Pairs};
pub use joins::{Joins, join_features};
pub use number::{Numbering, Unnumbered, number_features, number_kept};
pub use remap::place_in;
pub use sets::{KeptSets, MAX_FEATURES, MAX_LOOKUPS, MAX_SCRIPTS, NotKeptSets};
