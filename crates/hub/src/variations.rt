use crate::show::Shown;
use console::{Counted, Fixed, Version};
use source::{Condition, FeaturePlace, Source, Standing, Substitution};
use std::alloc::AllocError;

impl<'a, S: Source> Shown<'a, S> {
    pub(crate) fn write_variations(&mut self) -> Result<(), AllocError> {
        self.page.put("Variation list:")?;
        let found = match self.source.variations() {
            Standing::Absent => return self.page.line(" absent"),
            Standing::Unreadable => return self.page.line(" unreadable"),
            Standing::There(found) => found,
        };
        let version = Version(found.version);
        match found.count {
            0 => writeln!(self.page, " version {version}, no records")?,
            1 => writeln!(self.page, " version {version}, 1 record")?,
            n => writeln!(self.page, " version {version}, {n} records")?,
        }
        for at in 0..found.count {
            writeln!(self.page, "  {at}")?;
            self.write_conditions(at)?;
            self.write_substitution(at)?;
        }
        Ok(())
    }

    fn write_conditions(&mut self, at: u32) -> Result<(), AllocError> {
        let list = self.source.condition_set(at);
        let count = Counted {
            list,
            thing: "condition",
        };
        writeln!(self.page, "    condition set: {count}")?;
        for k in 0..list.count() {
            self.write_condition(k, self.source.condition(at, k))?;
        }
        Ok(())
    }

    fn write_condition(
        &mut self,
        k: u16,
        condition: Standing<Condition>,
    ) -> Result<(), AllocError> {
        write!(self.page, "      {k}: ")?;
        match condition {
            Standing::Absent => self.page.line("absent"),
            Standing::Unreadable => self.page.line("unreadable"),
            Standing::There(Condition::Other) => self.page.line("other format"),
            Standing::There(
                Condition::Format1 {
                    axis,
                    minimum,
                    maximum,
                },
            ) => {
                let (minimum, maximum) = (Fixed(minimum), Fixed(maximum));
                writeln!(self.page, "axis {axis} from {minimum} to {maximum}")
            }
        }
    }

    fn write_substitution(&mut self, at: u32) -> Result<(), AllocError> {
        self.page.put("    substitution:")?;
        let found = match self.source.substitution(at) {
            Standing::Absent => return self.page.line(" absent"),
            Standing::Unreadable => return self.page.line(" unreadable"),
            Standing::There(found) => found,
        };
        self.write_head(found)?;
        for k in 0..found.count {
            if let Some(index) = self.source.substituted_index(at, k) {
                let name = self.feature_name(index);
                write!(self.page, "      {name} ->")?;
                let place = FeaturePlace::Alternate {
                    variation: at,
                    substitution: k,
                };
                self.write_feature(place)?;
            }
        }
        Ok(())
    }

    fn write_head(&mut self, found: Substitution) -> Result<(), AllocError> {
        let version = Version(found.version);
        let count = Counted {
            list: Standing::There(found.count),
            thing: "record",
        };
        writeln!(self.page, " version {version}, {count}")
    }
}
