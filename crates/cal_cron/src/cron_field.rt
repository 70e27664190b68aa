//! The five time fields of a crontab line.

ghost use Rattle.std.specs.Prelude.{◌≡◌};
ghost use Rattle.cal_cron.specs.rules.CronGrammar.{greatest, least};
ghost use Rattle.cal_cron.specs.rules.CronMessages.{field_name};

use thiserror::Error;

/// A time field of a crontab line.
#[derive(Clone, Copy, PartialEq, Eq, Debug, Error)]
pub enum CronField {
    /// The minute, from 0 to 59.
    #[error("minute")]
    Minute,
    /// The hour, from 0 to 23.
    #[error("hour")]
    Hour,
    /// The day of the month, from 1 to 31.
    #[error("day of the month")]
    Day,
    /// The month, from 1 to 12.
    #[error("month")]
    Month,
    /// The weekday, from 0 to 7. Both 0 and 7 are Sunday.
    #[error("weekday")]
    Weekday,
}

impl CronField {
    /// Returns the name of the field, as `Display` prints it.
    pub fn words(&self) -> &str
        ensures { result.now ≡ field_name self.now }
    {
        match self {
            CronField::Minute => "minute",
            CronField::Hour => "hour",
            CronField::Day => "day of the month",
            CronField::Month => "month",
            CronField::Weekday => "weekday",
        }
    }

    /// Returns the least number that the field allows.
    pub fn least(self) -> u16
        ensures { result ≡ least self }
    {
        match self {
            CronField::Minute | CronField::Hour | CronField::Weekday => 0,
            CronField::Day | CronField::Month => 1,
        }
    }

    /// Returns the greatest number that the field allows.
    pub fn greatest(self) -> u16
        ensures { result ≡ greatest self }
    {
        match self {
            CronField::Minute => 59,
            CronField::Hour => 23,
            CronField::Day => 31,
            CronField::Month => 12,
            CronField::Weekday => 7,
        }
    }
}
