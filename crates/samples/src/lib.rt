// Layout tables, byte by byte or as rows, with what they say and how their features are numbered.
#![tactic(auto)]

mod alike;
mod numbers;
mod tables;
mod visits;

pub use alike::{
    apart_font, apart_font_matches, apart_font_numbers, apart_font_retained, swapped_font,
    swapped_font_numbers, trimmed_font, trimmed_font_numbers,
};
pub use numbers::{first_font_numbers, first_font_own, first_font_pairs, first_font_retained};
pub use tables::{first_font, first_font_matches, first_font_survivors, varied_font};
pub use visits::{visit_of_4999, visit_of_5000};

#[cfg(test)]
mod tests;
