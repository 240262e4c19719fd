ghost use Rattle.std.specs.Prelude.{◌≡◌, [], ◌++◌, string_bytes, codes, IfSome, OnOk};
ghost use Rattle.std.specs.Fmt.{AppendsText};
ghost use Rattle.console.specs.Pages.{written, column_after, last_line, gap, gap_column, item_text, item_column};

use std::alloc::{AllocError, Global};
use std::fmt::Display;

// The columns of a line, and the indent of a list that goes on.
const WIDTH: usize = 100;

const INDENT: &str = "          ";

// How many bytes stand after the last end of a line.
fn last_line_len(text: &[u8]) -> usize
    ensures { result ≡ last_line text.now }
{
    text.iter().rev().take_while(|byte| **byte != b'\n').count()
}

// Text in lines. A line that ends with a comma goes on in the next one.
#[derive(Drop)]
pub struct Page {
    text: String,
    column: usize,
}

impl Page {
    pub fn new(heap: Global) -> Page
        ensures text { written result ≡ [] }
        ensures column { result.column ≡ 0 }
    {
        Page {
            text: String::new(heap),
            column: 0,
        }
    }

    pub fn as_str(&self) -> &str
        ensures { result.now ≡ written self.now }
    {
        self.text.as_str()
    }

    // Adds text to the line.
    pub fn put(&mut self, text: &str) -> Result<(), AllocError>
        ensures text { OnOk result (written self.new ≡ written self.old ++ text.now) }
        ensures column { OnOk result (self.new.column ≡ column_after self.old.column text.now) }
    {
        self.text.push_str(text)?;
        self.column = self.column.saturating_add(text.len());
        Ok(())
    }

    // Ends the line.
    pub fn end(&mut self) -> Result<(), AllocError>
        ensures text { OnOk result (written self.new ≡ written self.old ++ codes "\n") }
        ensures column { OnOk result (self.new.column ≡ 0) }
    {
        self.text.push_str("\n")?;
        self.column = 0;
        Ok(())
    }

    // Adds text, and ends the line.
    pub fn line(&mut self, text: &str) -> Result<(), AllocError>
        ensures text { OnOk result (written self.new ≡ (written self.old ++ text.now) ++ codes "\n") }
        ensures column { OnOk result (self.new.column ≡ 0) }
    {
        self.put(text)?;
        self.end()
    }

    // Adds what a value displays to the line, as `write!` and `writeln!` do.
    pub fn write_fmt<D: Display + Drop>(&mut self, value: D) -> Result<(), AllocError>
        ensures text { OnOk result (AppendsText (written self.old) (written self.new) (D.output value)) }
        ensures column { OnOk result (self.new.column ≡ last_line (written self.new)) }
    {
        self.text.write_fmt(value)?;
        self.column = last_line_len(self.text.as_bytes());
        Ok(())
    }

    // Adds an item to a list, after those before it, on a new line where it would pass the width.
    pub fn item<D: Display + Drop>(&mut self, before: u16, item: D) -> Result<(), AllocError>
        ensures text { OnOk result (IfSome (D.output item) (λ s. written self.new ≡ written self.old ++ item_text self.old.column before s)) }
        ensures column { OnOk result (IfSome (D.output item) (λ s. self.new.column ≡ item_column self.old.column before s)) }
    {
        let text = item.to_string(*self.text.allocator())?;
        self.put_item(before, text.as_str())
    }

    // The same of a text, which is not copied first.
    pub fn put_item(&mut self, before: u16, item: &str) -> Result<(), AllocError>
        ensures text { OnOk result (written self.new ≡ written self.old ++ item_text self.old.column before item.now) }
        ensures column { OnOk result (self.new.column ≡ item_column self.old.column before item.now) }
    {
        if before > 0 {
            self.put(",")?;
        }
        self.part(item)?;
        self.put(item)
    }

    // Parts the item that comes next from what is before it.
    fn part(&mut self, item: &str) -> Result<(), AllocError>
        ensures text { OnOk result (written self.new ≡ written self.old ++ gap self.old.column item.now) }
        ensures column { OnOk result (self.new.column ≡ gap_column self.old.column item.now) }
    {
        if self.column.saturating_add(item.len()) < WIDTH {
            self.put(" ")
        } else {
            self.end()?;
            self.put(INDENT)
        }
    }
}
