use console::{
    CodePoint, Page, SetFields, SizeFields, VariantFields, character, set_fields, size_fields,
    variant_fields,
};
use source::{FeatureParams, Standing};
use std::alloc::AllocError;

// A feature's parameters, by their kind; nothing where it has none.
pub(crate) fn write_params(
    page: &mut Page,
    params: Standing<FeatureParams<'_>>,
) -> Result<(), AllocError> {
    match params {
        Standing::Absent => Ok(()),
        Standing::Unreadable => write_unreadable(page),
        Standing::There(FeatureParams::Size(bytes)) => match size_fields(bytes) {
            Some(fields) => write_size(page, fields),
            None => write_unreadable(page),
        },
        Standing::There(FeatureParams::StylisticSet(bytes)) => match set_fields(bytes) {
            Some(fields) => write_set(page, fields),
            None => write_unreadable(page),
        },
        Standing::There(FeatureParams::CharacterVariant(bytes)) => match variant_fields(bytes) {
            Some(fields) => write_variant(page, fields, bytes),
            None => write_unreadable(page),
        },
    }
}

fn write_unreadable(page: &mut Page) -> Result<(), AllocError> {
    page.line("        parameters: unreadable")
}

// A field after others.
fn write_field(page: &mut Page, name: &str, value: u16) -> Result<(), AllocError> {
    page.item(1, format_args!("{name} {value}"))
}

fn write_size(page: &mut Page, fields: SizeFields) -> Result<(), AllocError> {
    page.put("        parameters: size in decipoints")?;
    write_field(page, "design size", fields.design)?;
    write_field(page, "subfamily", fields.subfamily)?;
    write_field(page, "name", fields.name)?;
    write_field(page, "range start", fields.start)?;
    write_field(page, "range end", fields.end)?;
    page.end()
}

fn write_set(page: &mut Page, fields: SetFields) -> Result<(), AllocError> {
    page.put("        parameters: stylistic set")?;
    write_field(page, "version", fields.version)?;
    write_field(page, "name", fields.name)?;
    page.end()
}

fn write_variant(page: &mut Page, fields: VariantFields, bytes: &[u8]) -> Result<(), AllocError> {
    page.put("        parameters: character variant")?;
    write_field(page, "format", fields.format)?;
    write_field(page, "label", fields.label)?;
    write_field(page, "tooltip", fields.tooltip)?;
    write_field(page, "sample", fields.sample)?;
    write_field(page, "parameters", fields.parameters)?;
    write_field(page, "first parameter", fields.first)?;
    write_field(page, "characters", fields.characters)?;
    for k in 0..fields.characters {
        if let Some(code) = character(bytes, k) {
            page.item(1, CodePoint(code))?;
        }
    }
    page.end()
}
