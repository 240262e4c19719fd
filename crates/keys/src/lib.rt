// Ordered keys: what a key type owes, three key types, and a search and an insertion over a slice of keys in order.
#![tactic(auto)]

pub mod order;
pub mod pairs;
pub mod slots;
pub mod tags;
mod texts;

pub use order::Key;
pub use pairs::Pair;
pub use slots::{Full, contains, find, insert, is_ascending};
pub use tags::Tag;
pub use texts::NoTag;

#[cfg(test)]
mod tests;
