//! Laws which say that timestamps are parsed by the manual's rules. Each law is a function that does nothing and whose
//! contract is the law.

ghost use Rattle.std.specs.Prelude.{◌≡◌, ◌++◌, ◌↔◌, ℕ, ℤ, pos, List, Ok, Err, codes, decimal};
ghost use Rattle.jiff.specs.Types.{TimeZone};
ghost use Rattle.cal_zone.specs.rules.Civil.{civil_of};
ghost use Rattle.cal_zone.specs.rules.Instant.{IsInstant, IsMoment, micros_of};
ghost use Rattle.cal_zone.specs.rules.InstantText.{instant_text};
ghost use Rattle.cal_civil.specs.rules.LocalSecond.{IsLocalSecond};
ghost use Rattle.cal_zone.specs.rules.Zone.{utc, zone_of};
ghost use Rattle.cal_zone.specs.rules.ZoneTable.{ZoneMap, zone_named};
ghost use Rattle.cal_zone.specs.declared.zone.Zone.{Zone};
ghost use Rattle.cal_zone.specs.rules.Setting.{Setting};
ghost use Rattle.cal_stamp.specs.rules.StampCivilRule.{CivilStamp, HasNoSuchDate, IsCivilTime};
ghost use Rattle.cal_stamp.specs.computed.Stamp.{civil_time, moment_in};
ghost use Rattle.cal_stamp.specs.rules.StampFaultRule.{HasError};
ghost use Rattle.cal_stamp.specs.rules.StampRule.{Form, civil, counted, earlier, from_today, later, HasForm};
ghost use Rattle.cal_stamp.specs.computed.StampForm.{form_of};
ghost use Rattle.cal_stamp.specs.rules.StampMomentRule.{FallsOn, IsCivilMoment, IsDay, IsMidnight, LiesAfter, LiesBefore, MeansTime, ResolvesTo};
ghost use Rattle.cal_stamp.specs.rules.StampPrinted.{ShowsMinutes, ShowsYear};
ghost use Rattle.cal_stamp.specs.rules.StampViews.{setting};
ghost use Rattle.cal_stamp.specs.declared.fault.StampFault.{StampFault};
ghost use Rattle.cal_stamp.specs.declared.fault.StampFault.TheVariants.{NoSuchDate, OutOfRange, StrayWord, WrongWeekday};

/// Every text has exactly one form by the rule of systemd.time(7), Parsing Timestamps: the first form that matches the
/// text without leading and trailing blanks. `read_stamp` interprets the text in this form.
pub fn one_form()
    ensures found { (text : List ℕ) → HasForm text (form_of text) }
    ensures only { (text : List ℕ) (form : Form) → HasForm text form → form ≡ form_of text }
{}

/// A list of words is a civil time if and only if it is `[weekday] [date] [time] [zone]` with at least a date or a time
/// (systemd.time(7), Parsing Timestamps). `read_stamp` reads the words as that civil time.
pub fn one_civil_time()
    ensures found { (at : Setting) (ws : List (List ℕ)) (c : CivilStamp)
        → civil_time at ws ≡ Ok c → IsCivilTime at ws c }
    ensures only { (at : Setting) (ws : List (List ℕ)) (c : CivilStamp)
        → IsCivilTime at ws c → civil_time at ws ≡ Ok c }
{}

/// The error `NoSuchDate` occurs only for a date that is written out. A day that is computed from the present, such as
/// `tomorrow`, never has this error.
pub fn only_written_dates_are_none()
    ensures { (now : ℤ) (at : Setting) (text : List ℕ) → moment_in now at text ≡ Err NoSuchDate
        → (ws : List (List ℕ)) × (form_of text ≡ civil ws) × HasNoSuchDate ws }
{}

/// A time span after `+` or before `left` is added to the present, and one after `-` or before `ago` is subtracted from
/// it. A time span after `@` is added to 1970-01-01 00:00:00 UTC (systemd.time(7), Parsing Timestamps).
pub fn spans_count_from_the_present()
    ensures later { (now : ℤ) (at : Setting) (text span : List ℕ) (time : ℤ) → HasForm text (later span)
        → ((moment_in now at text ≡ Ok time) ↔ (LiesAfter now span time × IsMoment time)) }
    ensures earlier { (now : ℤ) (at : Setting) (text span : List ℕ) (time : ℤ) → HasForm text (earlier span)
        → ((moment_in now at text ≡ Ok time) ↔ (LiesBefore now span time × IsMoment time)) }
    ensures counted { (now : ℤ) (at : Setting) (text span : List ℕ) (time : ℤ) → HasForm text (counted span)
        → ((moment_in now at text ≡ Ok time) ↔ (LiesAfter (pos 0) span time × IsMoment time)) }
{}

/// `today`, `yesterday` and `tomorrow` resolve to the midnight at which the named day begins. Today is the day that the
/// clock of the timestamp's zone shows at present (systemd.time(7), Parsing Timestamps). A midnight in a gap is moved
/// forward by the length of the gap, and for a midnight in a fold the first occurrence is used.
pub fn relative_days_begin_at_midnight()
    ensures { (now : ℤ) (at : Setting) (text : List ℕ) (shift : ℤ) (words : List (List ℕ)) (time : ℤ)
        → HasForm text (from_today shift words)
        → ((moment_in now at text ≡ Ok time) ↔ (IsMidnight now at shift words time × IsMoment time)) }
{}

/// A civil time has a day, a time of day and a zone. It resolves to the moment at which the zone's clock shows this
/// time of day on this day (systemd.time(7), Parsing Timestamps). A local time in a gap is moved forward by the length
/// of the gap, and for a local time in a fold the first occurrence is used. If a weekday is named and the day isn't
/// this weekday, the error is `WrongWeekday`, even if the time is also out of range.
pub fn weekdays_are_checked()
    ensures right { (now : ℤ) (at : Setting) (text : List ℕ) (words : List (List ℕ)) (time : ℤ)
        → HasForm text (civil words)
        → ((moment_in now at text ≡ Ok time) ↔ (IsCivilMoment now at words time × IsMoment time)) }
    ensures wrong { (now : ℤ) (at : Setting) (text : List ℕ) (words : List (List ℕ)) (c : CivilStamp) (day : ℤ)
        → HasForm text (civil words) → IsCivilTime at words c → IsDay now c.zone c.day day
        → ((moment_in now at text ≡ Err WrongWeekday) ↔ (FallsOn c.weekday day → ⊥)) }
{}

/// The error of a civil time (systemd.time(7), Parsing Timestamps) is the error of the leftmost word that isn't valid
/// in its position, or `BadDate` if the words end before a date or a time is given. If the words have no error, the
/// weekday is checked (`WrongWeekday`), and then the range (`OutOfRange`). In the other forms, too, the range is
/// checked last.
pub fn first_error()
    ensures { (now : ℤ) (at : Setting) (text : List ℕ) (form : Form) (fault : StampFault) → HasForm text form
        → ((moment_in now at text ≡ Err fault) ↔ HasError now at form fault) }
{}

/// A text is a timestamp that resolves to a moment if and only if the rule of systemd.time(7), Parsing Timestamps, says
/// so: the text's form stands for this moment, which is in the supported range. `read_stamp` returns this moment.
pub fn one_moment()
    ensures { (now : ℤ) (at : Setting) (text : List ℕ) (time : ℤ)
        → (moment_in now at text ≡ Ok time) ↔ ResolvesTo now at text time }
{}

/// A timestamp (systemd.time(7), Parsing Timestamps) resolves to a time from the first moment to the last (0 to
/// 7,258,211,998,999,999 microseconds of Unix time). If a text stands for any other time, the error is `OutOfRange`.
pub fn moments_are_in_range()
    ensures inside { (now : ℤ) (at : Setting) (text : List ℕ) (time : ℤ) → moment_in now at text ≡ Ok time
        → IsMoment time }
    ensures beyond { (now : ℤ) (at : Setting) (text : List ℕ) (form : Form) (time : ℤ) → HasForm text form
        → MeansTime now at form time → (IsMoment time → ⊥) → moment_in now at text ≡ Err OutOfRange }
{}

/// Parsing a printed instant (systemd.time(7), Parsing Timestamps) gives the same instant under two conditions on the
/// zone in which the instant is printed: at this instant, the zone's clock shows a year from 1970 to 2199, and the
/// zone's UTC offset is a whole number of minutes. This holds whatever the present, the local zone and the table of
/// zones are. In UTC, it holds for every instant of the years 1970 to 2199.
///
/// An offset that isn't a whole number of minutes is printed with seconds, and the parser rejects offsets with seconds
/// (`StrayWord`). At the first instants, clocks west of UTC show 1969, and at the last instants most clocks show 2200;
/// dates in these years are rejected (`NoSuchDate`).
pub fn printed_instants_read_back()
    ensures back { (now : ℤ) (local : TimeZone) (table : ZoneMap) (zone : Zone) (secs : ℤ) → IsInstant secs
        → ShowsYear (civil_of (zone_of zone) secs) → ShowsMinutes (civil_of (zone_of zone) secs)
        → moment_in now (setting local (zone_named table)) (instant_text zone secs) ≡ Ok (micros_of secs) }
    ensures utc { (now : ℤ) (local : TimeZone) (table : ZoneMap) (secs : ℤ) → IsLocalSecond secs
        → moment_in now (setting local (zone_named table)) (instant_text utc secs) ≡ Ok (micros_of secs) }
    ensures seconds { (now : ℤ) (local : TimeZone) (table : ZoneMap) (zone : Zone) (secs : ℤ) → IsInstant secs
        → ShowsYear (civil_of (zone_of zone) secs) → (ShowsMinutes (civil_of (zone_of zone) secs) → ⊥)
        → moment_in now (setting local (zone_named table)) (instant_text zone secs) ≡ Err StrayWord }
    ensures none { (now : ℤ) (local : TimeZone) (table : ZoneMap) (zone : Zone) (secs : ℤ) → IsInstant secs
        → (ShowsYear (civil_of (zone_of zone) secs) → ⊥)
        → moment_in now (setting local (zone_named table)) (instant_text zone secs) ≡ Err NoSuchDate }
{}

/// Parsing `@` and the decimal digits of an instant gives that instant, whatever the present and the zones are
/// (systemd.time(7), Parsing Timestamps).
pub fn counted_seconds_read_back()
    ensures { (now : ℤ) (at : Setting) (n : ℕ) → IsInstant (pos n)
        → moment_in now at (codes "@" ++ decimal n) ≡ Ok (micros_of (pos n)) }
{}
