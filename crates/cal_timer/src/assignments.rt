//! The assignments of a timer file, and what each of them does to the list of expressions or to the list of exceptions
//! (systemd.syntax(7); systemd.timer(5), OnCalendar=). An exception is an expression after `X-ExceptOnCalendar=`; when
//! it elapses, the timer doesn't.

ghost use Rattle.std.specs.Prelude.{◌≡◌, MatchOption, true, false};
ghost use Rattle.std.specs.Option.{option_map};
ghost use Rattle.cal_timer.specs.rules.Assignments.{assignment_of, is_header, section_of};
ghost use Rattle.cal_timer.specs.rules.LineView.{line_at};
ghost use Rattle.cal_timer.specs.rules.TimerView.{shown_assignment};
ghost use Rattle.cal_timer.specs.rules.TimerText.{is_exception, is_exception_reset, is_expression, is_reset};

use crate::keys::{clears_expressions, is_calendar_trigger, is_exception_key};
use crate::lines::trim;

/// An assignment of a unit file: a key and its value, both without leading and trailing blanks and carriage returns.
#[derive(Clone, Copy)]
pub struct Assignment<'t> {
    /// The number of the assignment's line, as passed to [`read_assignment`]. If the line is continued, this is the
    /// number of its first physical line.
    pub number: u32,
    /// The key, before the first `=`.
    pub key: &'t str,
    /// The value, which may be empty.
    pub value: &'t str,
}

impl Assignment<'_> {
    /// Returns whether the assignment clears the list of expressions: its value is empty, and its key is `OnCalendar` or
    /// that of a monotonic timer, such as `OnBootSec`.
    #[tactic(auto, unfolding(crate::specs::rules::TimerText::is_reset))]
    pub fn is_reset(self) -> bool
        ensures { result ≡ is_reset (shown_assignment self.entry) }
    {
        self.value.is_empty() && clears_expressions(self.key)
    }

    /// Returns whether the assignment is an expression: `OnCalendar` with a value.
    #[tactic(auto, unfolding(crate::specs::rules::TimerText::is_expression))]
    pub fn is_expression(self) -> bool
        ensures { result ≡ is_expression (shown_assignment self.entry) }
    {
        !self.value.is_empty() && is_calendar_trigger(self.key)
    }

    /// Returns whether the assignment clears the list of exceptions: `X-ExceptOnCalendar` with an empty value.
    #[tactic(auto, unfolding(crate::specs::rules::TimerText::is_exception_reset))]
    pub fn is_exception_reset(self) -> bool
        ensures { result ≡ is_exception_reset (shown_assignment self.entry) }
    {
        self.value.is_empty() && is_exception_key(self.key)
    }

    /// Returns whether the assignment is an exception: `X-ExceptOnCalendar` with a value.
    #[tactic(auto, unfolding(crate::specs::rules::TimerText::is_exception))]
    pub fn is_exception(self) -> bool
        ensures { result ≡ is_exception (shown_assignment self.entry) }
    {
        !self.value.is_empty() && is_exception_key(self.key)
    }
}

/// Returns the name of the section that a line opens, without the brackets. Returns `None` if the line doesn't begin
/// with `[` and end with `]`, so blanks around the brackets must be trimmed first.
pub fn section(line: &str) -> Option<&[u8]>
    ensures { MatchOption result (is_header line.now ≡ false)
        (λ name. (is_header line.now ≡ true) × (name.now ≡ section_of line.now)) }
{
    match line.as_bytes() {
        [b'[', name @ .., b']'] => Some(name),
        _ => None,
    }
}

/// Parses the line with this number as an assignment: the key is before the first `=`, and the value is after it.
/// Returns `None` if the line has no `=`.
#[tactic(auto, unfolding(crate::specs::rules::Assignments::assignment_of))]
pub fn read_assignment(number: u32, line: &str) -> Option<Assignment<'_>>
    ensures { option_map shown_assignment result ≡ assignment_of (line_at number line.now) }
{
    let Some((key, value)) = line.split_once('=') else {
        return None;
    };
    Some(Assignment {
        number,
        key: trim(key),
        value: trim(value),
    })
}
