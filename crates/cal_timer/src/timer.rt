//! The calendar expressions of a timer (systemd.timer(5), OnCalendar=), and its exceptions (`X-ExceptOnCalendar=`).

ghost use Rattle.std.specs.Prelude.{◌≡◌, map};
ghost use Rattle.cal_timer.specs.rules.TimerView.{shown};

use cal_spec::Expr;
use std::marker::Model;

/// A calendar expression of a timer, or an exception.
#[derive(Debug, Drop)]
pub struct TimerLine {
    /// The number of the expression's line. [`crate::read_timer`] counts lines from 1, and
    /// [`crate::TimerLists::take_text`] counts them from the number that it is given. If the line is continued, this is
    /// the number of its first physical line.
    pub number: u32,
    /// The expression as it is written in the file, without leading and trailing blanks and carriage returns.
    pub text: String,
    /// The expression, parsed and in normal form.
    pub expr: Expr,
}

/// The calendar expressions of a timer, at least one, and its exceptions. Both lists are in the order in which their
/// lines were read.
#[derive(Debug, Drop)]
pub struct Timer {
    lines: Vec<TimerLine>,
    exceptions: Vec<TimerLine>,
}

impl Model for Timer {
    ghost use Rattle.std.specs.Prelude.{map};
    ghost use Rattle.cal_spec.specs.rules.Fields.{Fields};
    ghost use Rattle.cal_timer.specs.rules.TimerEntries.{Timer};
    ghost use Rattle.cal_timer.specs.rules.TimerView.{shown};

    ghost Value = { Timer Fields };

    ghost view = { λ timer. record { expressions = map shown timer.lines.items; exceptions = map shown timer.exceptions.items } };
}

impl Timer {
    /// The maximum size of a timer file, in bytes.
    pub const FILE_LIMIT: usize = 1_048_576;

    pub(crate) fn new(lines: Vec<TimerLine>, exceptions: Vec<TimerLine>) -> Timer
        ensures { result ≡ record { expressions = map shown lines.items; exceptions = map shown exceptions.items } }
    {
        Timer { lines, exceptions }
    }

    /// Returns the expressions in the order of their lines. This doesn't allocate.
    pub fn lines(&self) -> &[TimerLine]
        ensures { map shown result.now ≡ self.now.expressions }
    {
        self.lines.as_slice()
    }

    /// Returns the exceptions in the order of their lines. This doesn't allocate.
    pub fn exceptions(&self) -> &[TimerLine]
        ensures { map shown result.now ≡ self.now.exceptions }
    {
        self.exceptions.as_slice()
    }
}
