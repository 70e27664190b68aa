//! The width of the output, and text that is bold or red.

ghost use Rattle.std.specs.Prelude.{◌≡◌, ◌++◌, OnOk, string_bytes};
ghost use Rattle.cal_timers_report.specs.rules.Emphasis.{begin_text, end_text};

use std::alloc::AllocError;

/// How text is printed: the width of the terminal, and whether bold and red are used.
#[derive(Clone, Copy)]
pub struct Style {
    /// The width of the terminal, in characters. The notes in the table of timers are cut to fit into it.
    pub width: usize,
    /// Whether headings are bold and the word `error` is bold and red.
    pub is_bold: bool,
}

/// A kind of emphasized text.
#[derive(Clone, Copy)]
pub enum Emphasis {
    Heading,
    Error,
}

impl Style {
    /// Appends the escape sequence that begins emphasized text. If `is_bold` is `false`, appends nothing.
    pub fn begin(self, out: &mut String, emphasis: Emphasis) -> Result<(), AllocError>
        ensures { OnOk result (string_bytes out.new ≡ string_bytes out.old ++ begin_text self emphasis) }
    {
        if !self.is_bold {
            return Ok(());
        }
        match emphasis {
            Emphasis::Heading => out.push_str("\x1b[1m"),
            Emphasis::Error => out.push_str("\x1b[1;31m"),
        }
    }

    /// Appends the escape sequence that ends emphasized text. If `is_bold` is `false`, appends nothing.
    pub fn end(self, out: &mut String) -> Result<(), AllocError>
        ensures { OnOk result (string_bytes out.new ≡ string_bytes out.old ++ end_text self) }
    {
        if self.is_bold {
            out.push_str("\x1b[0m")
        } else {
            Ok(())
        }
    }
}
