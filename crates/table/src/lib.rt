// A source over the bytes of a layout table.
#![tactic(auto)]

mod answers;
mod bytes;
mod counted;
mod fields;
mod layouts;
mod located;
mod opening;
mod place;
mod places;
mod reads;
mod variations;

pub use bytes::Table;
