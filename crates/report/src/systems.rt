use console::Page;
use keys::Pair;
use source::Source;
use std::alloc::AllocError;

// The language systems that are kept beside the default ones.
pub(crate) fn write_pairs<S: Source>(
    source: &S,
    page: &mut Page,
    pairs: &[Pair],
) -> Result<(), AllocError> {
    match pairs.len() {
        0 => page.line("Kept language systems beside the defaults: none")?,
        n => writeln!(page, "Kept language systems beside the defaults: {n}")?,
    }
    for pair in pairs {
        let (script, system) = (pair.script, pair.lang_sys);
        let (tag, name) = (
            source.script_tag(script),
            source.lang_sys_tag(script, system),
        );
        writeln!(page, "  script {script} {tag}, system {system} {name}")?;
    }
    Ok(())
}
