// Kept sets: lists that ascend, with no key twice, and the words that give them.
#![tactic(auto)]

mod indices;
mod lists;
mod parts;
mod runs;
mod sets;
mod tags;
#[cfg(test)]
mod tests;

pub use indices::read_indices;
pub use lists::{Unread, read_set};
pub use parts::Part;
pub use runs::Run;
pub use sets::put;
pub use tags::read_tags;
