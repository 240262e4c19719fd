// What a terminal program needs: the words of its command, and text to print.
#![tactic(auto)]

mod arguments;
mod counts;
mod page;
mod params;
mod requests;
#[cfg(test)]
mod tests;
mod text;

pub use arguments::{Command, Misuse, read_command};
pub use counts::Counted;
pub use page::Page;
pub use params::{
    SetFields, SizeFields, VariantFields, character, set_fields, size_fields, variant_fields,
};
pub use requests::{Request, RequestMisuse, SetWords, read_request};
pub use text::{CodePoint, Fixed, Version};
