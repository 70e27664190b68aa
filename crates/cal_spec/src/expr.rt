//! Parsed calendar expressions (systemd.time(7), Calendar Events).

ghost use Rattle.std.specs.Prelude.{◌≡◌, ◌<◌, unsigned_abs, option_copied, option_map, IfSome};
ghost use Rattle.jiff_core.specs.Timestamp.{IsOffsetSeconds};
ghost use Rattle.cal_spec.specs.computed.NormalParts.{AreParts, normal_component, normal_second};
ghost use Rattle.cal_spec.specs.rules.NormalForm.{normal_from_end};

use crate::fields::{DateFields, Fields, TimeFields};
use crate::matching::has_local;
use crate::members::component_has;
use crate::normal_form::{normal_component, normal_second};
use crate::slot::{Slot, day_slot};
use crate::zone_suffix::ZoneSuffix;
use crate::{Field, Part};
use std::marker::Model;

/// A valid calendar expression in normal form (systemd.time(7), Calendar Events).
///
/// Contracts see an expression as its fields.
#[derive(Debug, Drop)]
pub struct Expr {
    fields: Fields,
}

impl Model for Expr {
    ghost use Rattle.cal_spec.specs.computed.Views.{fields_of};
    ghost use Rattle.cal_spec.specs.rules.Fields.{Fields};
    ghost use Rattle.cal_spec.specs.computed.Expr.{IsExpr};

    ghost Value = { Fields };

    ghost view = { λ e. fields_of e.fields };

    ghost invariant = { λ e. IsExpr (fields_of e.fields) };
}

impl Expr {
    ghost use Rattle.cal_civil.specs.rules.LocalSecond.{IsLocalSecond};
    ghost use Rattle.cal_spec.specs.computed.Expr.{IsExpr, component, members_of};
    ghost use Rattle.cal_spec.specs.computed.Views.{fields_of, shown_suffix};
    ghost use Rattle.cal_spec.specs.rules.Match.{matches};
    ghost use Rattle.cal_spec.specs.rules.Members.{sets_of};
    ghost use Rattle.cal_spec.specs.computed.NormalParts.{normal_fields};
    ghost use Rattle.cal_spec.specs.rules.ValidFields.{IsValidFields};
    ghost use Rattle.cal_spec.specs.rules.ZoneSuffix.{name_in, offset_said};

    /// Brings parsed fields into their normal form. Doesn't allocate.
    pub fn normal(fields: Fields) -> Expr
        requires { IsValidFields (fields_of fields) }
        ensures { result ≡ normal_fields (fields_of fields) }
    {
        let Fields {
            weekdays,
            date,
            time,
            zone,
        } = fields;
        Expr {
            fields: Fields {
                weekdays,
                date: normal_date(date),
                time: normal_time(time),
                zone,
            },
        }
    }

    /// Returns whether the weekday, date and time of `local` match the expression. The zone is ignored.
    ///
    /// `local` is a local second: seconds since 1970-01-01 00:00:00 on the clock, in the years 1970 to 2199.
    pub fn has(&self, local: i64) -> bool
        requires { IsLocalSecond local }
        ensures { result ≡ matches (sets_of self.now) (unsigned_abs local) }
    {
        has_local(&self.fields, local)
    }

    /// Returns whether the component `field` matches `value`. For [`Field::Day`], `value` is the day of the month, or,
    /// if [`Expr::from_end`] returns `true`, its count from the month's end (1 is the last day).
    #[tactic(auto, unfolding(crate::specs::computed::Views::fields_of, crate::specs::rules::Members::sets_of))]
    pub fn has_member(&self, field: Field, value: u16) -> bool
        ensures { result ≡ members_of field (sets_of self.now) value }
    {
        let Fields { date, time, .. } = &self.fields;
        match field {
            Field::Year => component_has(Slot::Year, &date.year, value),
            Field::Month => component_has(Slot::Month, &date.month, value),
            Field::Day => component_has(day_slot(date.from_end), &date.day, value),
            Field::Hour => component_has(Slot::Hour, &time.hour, value),
            Field::Minute => component_has(Slot::Minute, &time.minute, value),
            Field::Second => component_has(Slot::Second, &time.second, value),
        }
    }

    /// Returns which weekdays match, from Monday to Sunday. The contract also states that the fields are valid and in
    /// normal form.
    #[tactic(auto, unfolding(crate::specs::computed::Views::fields_of))]
    pub fn weekdays(&self) -> [bool; 7]
        ensures chosen { result ≡ self.now.weekdays }
        ensures expr { IsExpr self.now }
    {
        self.fields.weekdays
    }

    /// Returns the parts of a component, or `None` for `*`. The contract also states that the fields are valid and in
    /// normal form.
    #[tactic(auto, unfolding(crate::specs::computed::Views::fields_of))]
    pub fn field(&self, field: Field) -> Option<&[Part]>
        ensures parts { option_copied result ≡ component field self.now }
        ensures expr { IsExpr self.now }
    {
        let Fields { date, time, .. } = &self.fields;
        let parts = match field {
            Field::Year => &date.year,
            Field::Month => &date.month,
            Field::Day => &date.day,
            Field::Hour => &time.hour,
            Field::Minute => &time.minute,
            Field::Second => &time.second,
        };
        parts.as_deref()
    }

    /// Returns whether days are counted from the month's end, so that 1 is the last day of a month.
    #[tactic(auto, unfolding(crate::specs::computed::Views::fields_of))]
    pub fn from_end(&self) -> bool
        ensures { result ≡ self.now.from_end }
    {
        self.fields.date.from_end
    }

    /// Returns the name of the expression's zone. Returns `None` if the expression has no zone or its zone is a UTC
    /// offset.
    pub fn zone_name(&self) -> Option<&str>
        ensures { option_copied result ≡ name_in self.now.zone }
    {
        match self.zone() {
            Some(ZoneSuffix::Name(name)) => Some(name),
            _ => None,
        }
    }

    /// Returns the UTC offset of the expression's zone in seconds, from -93,540 to 93,540. It is a multiple of 60.
    /// Returns `None` if the expression has no zone or its zone is a name.
    pub fn zone_offset(&self) -> Option<i32>
        ensures offset { result ≡ offset_said self.now.zone }
        ensures range { IfSome result IsOffsetSeconds }
    {
        match self.zone() {
            Some(ZoneSuffix::Offset(seconds)) => Some(*seconds),
            _ => None,
        }
    }

    /// Returns the zone, if the expression has one. The contract also states that the fields are valid and in normal
    /// form.
    #[tactic(auto, unfolding(crate::specs::computed::Views::fields_of))]
    pub(crate) fn zone(&self) -> Option<&ZoneSuffix>
        ensures zone { option_map shown_suffix (option_copied result) ≡ self.now.zone }
        ensures expr { IsExpr self.now }
    {
        self.fields.zone.as_ref()
    }
}

fn normal_date(date: DateFields) -> DateFields
    requires year { AreParts (option_map (λ v. v.items) date.year) }
    requires month { AreParts (option_map (λ v. v.items) date.month) }
    requires day { AreParts (option_map (λ v. v.items) date.day) }
    ensures year { option_map (λ v. v.items) result.year ≡ normal_component (option_map (λ v. v.items) date.year) }
    ensures month { option_map (λ v. v.items) result.month ≡ normal_component (option_map (λ v. v.items) date.month) }
    ensures day { option_map (λ v. v.items) result.day ≡ normal_component (option_map (λ v. v.items) date.day) }
    ensures from_end { result.from_end ≡ normal_from_end date.from_end (option_map (λ v. v.items) date.day) }
{
    let DateFields {
        year,
        month,
        day,
        from_end,
    } = date;
    let from_end = from_end && day.is_some();
    DateFields {
        year: normal_component(year),
        month: normal_component(month),
        day: normal_component(day),
        from_end,
    }
}

fn normal_time(time: TimeFields) -> TimeFields
    requires hour { AreParts (option_map (λ v. v.items) time.hour) }
    requires minute { AreParts (option_map (λ v. v.items) time.minute) }
    requires second { AreParts (option_map (λ v. v.items) time.second) }
    ensures hour { option_map (λ v. v.items) result.hour ≡ normal_component (option_map (λ v. v.items) time.hour) }
    ensures minute { option_map (λ v. v.items) result.minute ≡ normal_component (option_map (λ v. v.items) time.minute) }
    ensures second { option_map (λ v. v.items) result.second ≡ normal_second (option_map (λ v. v.items) time.second) }
{
    let TimeFields {
        hour,
        minute,
        second,
    } = time;
    TimeFields {
        hour: normal_component(hour),
        minute: normal_component(minute),
        second: normal_second(second),
    }
}
