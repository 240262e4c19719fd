// What a numbering makes of the features of a table, told in lines of text.
#![tactic(auto)]

mod choices;
mod fates;
mod faults;
mod features;
mod named;
mod systems;
mod tell;

pub use choices::{KeptSets, keep};
pub use fates::{Fate, fate_of};
pub use faults::Untold;
pub use tell::tell_numbering;
