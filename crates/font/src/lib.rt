// Finding a table in a font file (sfnt), and numbers in bytes.
#![tactic(auto)]

mod directory;
mod reads;
mod tables;
#[cfg(test)]
mod tests;

pub use reads::{bytes_at, u16_at, u32_at};
pub use tables::{FontFault, Part, find_table};
