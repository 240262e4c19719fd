// A sink of objects: bytes with links between them, shared where they are equal, and laid end to end.
#![tactic(auto)]

mod assigns;
mod copies;
mod faults;
mod finds;
mod frames;
mod hashes;
mod lays;
mod links;
mod marks;
mod offsets;
mod opens;
mod packs;
mod pieces;
mod scalars;
mod tables;
mod tokens;
mod writes;

pub use faults::Fault;
pub use marks::Mark;
pub use pieces::Piece;
pub use scalars::Scalar;
pub use tables::{Counts, Frame, Link, Packed, Serializer, Width};
pub use tokens::Token;
