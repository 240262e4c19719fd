use crate::features::FeatureName;
use crate::show::Shown;
use console::Counted;
use source::{LangSys, LangSysPlace, Source, Standing};
use std::alloc::AllocError;

impl<'a, S: Source> Shown<'a, S> {
    pub(crate) fn write_scripts(&mut self) -> Result<(), AllocError> {
        let list = self.source.script_list();
        let count = Counted {
            list,
            thing: "script",
        };
        writeln!(self.page, "Script list: {count}")?;
        for at in 0..list.count() {
            self.write_script(at)?;
        }
        Ok(())
    }

    fn write_script(&mut self, at: u16) -> Result<(), AllocError> {
        let tag = self.source.script_tag(at);
        let list = self.source.script(at);
        let count = Counted {
            list,
            thing: "language system",
        };
        writeln!(self.page, "  {at} {tag}: {count}")?;
        if let Standing::There(_) = list {
            self.page.put("    default:")?;
            self.write_lang_sys(LangSysPlace::Default { script: at })?;
        }
        for k in 0..list.count() {
            let tag = self.source.lang_sys_tag(at, k);
            write!(self.page, "    {k} {tag}:")?;
            let place = LangSysPlace::Record {
                script: at,
                lang_sys: k,
            };
            self.write_lang_sys(place)?;
        }
        Ok(())
    }

    fn write_lang_sys(&mut self, place: LangSysPlace) -> Result<(), AllocError> {
        match self.source.lang_sys(place) {
            Standing::Absent => self.page.line(" absent"),
            Standing::Unreadable => self.page.line(" unreadable"),
            Standing::There(found) => self.write_indices(place, found),
        }
    }

    // The required feature, and the listed ones.
    fn write_indices(&mut self, place: LangSysPlace, found: LangSys) -> Result<(), AllocError> {
        match found.required_feature() {
            Some(index) => {
                let name = self.feature_name(index);
                write!(self.page, " required {name};")?
            }
            None => self.page.put(" required none;")?,
        }
        self.page.put(if found.count == 0 {
            " no features"
        } else {
            " features"
        })?;
        for k in 0..found.count {
            if let Some(index) = self.source.feature_index(place, k) {
                let name = self.feature_name(index);
                self.page.item(k, name)?;
            }
        }
        self.page.end()
    }
}
