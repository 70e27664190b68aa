//! Errors in the time fields of a crontab line.

ghost use Rattle.std.specs.Prelude.{◌≡◌, ◌++◌, OnOk, string_bytes};
ghost use Rattle.cal_cron.specs.rules.CronMessages.{message_of};
ghost use Rattle.cal_cron.specs.declared.cron_fault.CronFault.TheVariants.{InField};

use crate::{CronField, FieldFault};
use std::alloc::AllocError;
use thiserror::Error;

/// Why a text is not the time fields of a crontab line.
#[derive(Clone, Copy, PartialEq, Eq, Debug, Error)]
pub enum CronFault {
    /// The text has neither five fields nor a single word that begins with `@`.
    #[error("expected five fields")]
    FieldCount,
    /// The word after `@` is unknown.
    #[error("unknown word after @")]
    UnknownShortcut,
    /// The text is `@reboot`, which has no calendar time.
    #[error("@reboot has no calendar time")]
    Reboot,
    /// This field is invalid, for this reason.
    #[error("{0}: {1}")]
    InField(CronField, FieldFault),
    /// Out of memory.
    #[error("")]
    NoMemory,
}

impl CronFault {
    /// Appends the message for users, as `Display` prints it, such as `hour: value out of range`. Appends nothing for
    /// [`CronFault::NoMemory`]. Fails only if allocation fails.
    pub fn push_words(&self, out: &mut String) -> Result<(), AllocError>
        ensures { OnOk result (string_bytes out.new ≡ string_bytes out.old ++ message_of self.now) }
    {
        match self {
            CronFault::FieldCount => out.push_str("expected five fields"),
            CronFault::UnknownShortcut => out.push_str("unknown word after @"),
            CronFault::Reboot => out.push_str("@reboot has no calendar time"),
            CronFault::InField(field, fault) => push_in_field(out, *field, *fault),
            CronFault::NoMemory => Ok(()),
        }
    }
}

fn push_in_field(out: &mut String, field: CronField, fault: FieldFault) -> Result<(), AllocError>
    ensures { OnOk result (string_bytes out.new ≡ string_bytes out.old ++ message_of (InField field fault)) }
{
    out.push_str(field.words())?;
    out.push_str(": ")?;
    out.push_str(fault.words())
}
