//! Errors in a field of a crontab line.

ghost use Rattle.std.specs.Prelude.{◌≡◌};

use thiserror::Error;

/// Why a text is not a valid field of a crontab line.
#[derive(Clone, Copy, PartialEq, Eq, Debug, Error)]
pub enum FieldFault {
    /// A value is neither a number nor a name that the field knows.
    #[error("neither a number nor a name")]
    BadValue,
    /// A number is out of range for the field, such as 60 for the minute.
    #[error("value out of range")]
    OutOfField,
    /// A range ends below its start.
    #[error("range runs backwards")]
    BackwardRange,
    /// The text after the `/` is not a number, as in `*/x`.
    #[error("step is not a number")]
    BadStep,
    /// The step is zero, as in `*/0`.
    #[error("step of zero")]
    ZeroStep,
    /// The step is above 9,999.
    #[error("step above 9999")]
    LargeStep,
    /// A step follows a single value, as in `5/10`. Programs disagree about what this means.
    #[error("step after a single value")]
    StepAlone,
    /// There are more than 60 items.
    #[error("more than 60 items")]
    TooManyItems,
    /// Out of memory.
    #[error("")]
    NoMemory,
}

impl FieldFault {
    ghost use Rattle.cal_cron.specs.rules.CronMessages.{field_message};

    /// Returns the message for users, as `Display` prints it. It is empty for [`FieldFault::NoMemory`].
    pub fn words(&self) -> &str
        ensures { result.now ≡ field_message self.now }
    {
        match self {
            FieldFault::BadValue => "neither a number nor a name",
            FieldFault::OutOfField => "value out of range",
            FieldFault::BackwardRange => "range runs backwards",
            FieldFault::BadStep => "step is not a number",
            FieldFault::ZeroStep => "step of zero",
            FieldFault::LargeStep => "step above 9999",
            FieldFault::StepAlone => "step after a single value",
            FieldFault::TooManyItems => "more than 60 items",
            FieldFault::NoMemory => "",
        }
    }
}
