//! Crontabs: the expressions of time fields, or the error in them, the command of an entry with its input, what is found in
//! entries, and the times of single entries. The expected texts are worked out by hand from crontab(5) and systemd.time(7).

use cal_cron::{
    CronFault, CrontabFormat, EntryTime, LineContent, fault_start, read_cron, read_crontab,
    read_entry_time,
};
use cal_crontabs::{CronFinding, Crontab, cron_findings};
use cal_library_tests::shared::ensure;
use cal_lint::open_step_flaw;
use cal_spec::{Expr, normal_text};
use std::alloc::Global;
use std::test::Fail;

/// Time fields, each with the expressions that elapse when cron runs the line, or with the column and the message of
/// the error.
static TIME_FIELDS: [(&str, &str); 68] = [
    ("5 0 * * *", "*-*-* 00:05:00"),
    ("15 14 1 * *", "*-*-01 14:15:00"),
    ("0 22 * * 1-5", "Mon..Fri *-*-* 22:00:00"),
    ("5 4 * * sun", "Sun *-*-* 04:05:00"),
    ("0 4 8-14 * *", "*-*-08..14 04:00:00"),
    ("0 9 * * Mon-Fri", "Mon..Fri *-*-* 09:00:00"),
    ("0 0 * jan,JUL *", "*-01,07-* 00:00:00"),
    ("* * * * *", "*-*-* *:*:00"),
    ("0-59 * * * *", "*-*-* *:*:00"),
    ("*,5 * * * *", "*-*-* *:*:00"),
    ("0 0 31 2 *", "*-02-31 00:00:00"),
    ("  0\t0 1 1 *  ", "*-01-01 00:00:00"),
    ("007 09 * * *", "*-*-* 09:07:00"),
    ("*/60 * * * *", "*-*-* *:00:00"),
    ("5-5/3 * * * *", "*-*-* *:05:00"),
    // A step keeps its end if systemd 252 would go on past it, as from minute 56 to minute 3, or hour 22 to hour 0.
    ("*/5 * * * *", "*-*-* *:00/5:00"),
    ("*/7 * * * *", "*-*-* *:00..56/7:00"),
    ("10-59/15 * * * *", "*-*-* *:10..55/15:00"),
    ("1-10/4 * * * *", "*-*-* *:01..09/4:00"),
    ("23 0-23/2 * * *", "*-*-* 00..22/2:23:00"),
    ("0 1-23/2 * * *", "*-*-* 01/2:00:00"),
    ("0,30 8-18/2 * * *", "*-*-* 08..18/2:00,30:00"),
    ("0 0 */7 * *", "*-*-01..29/7 00:00:00"),
    ("0 0 * */3 *", "*-01/3-* 00:00:00"),
    ("0 0 * Jan-mar/2 *", "*-01..03/2-* 00:00:00"),
    // Both 0 and 7 are Sunday.
    ("0 0 * * 5-7", "Fri..Sun *-*-* 00:00:00"),
    ("0 0 * * 0,7", "Sun *-*-* 00:00:00"),
    ("0 0 * * 0-2", "Mon,Tue,Sun *-*-* 00:00:00"),
    ("0 0 * * */2", "Tue,Thu,Sat,Sun *-*-* 00:00:00"),
    ("0 0 * * 1-7/3", "Mon,Thu,Sun *-*-* 00:00:00"),
    ("0 0 * * sat,SUN", "Sat,Sun *-*-* 00:00:00"),
    ("0 0 * * 0-6", "*-*-* 00:00:00"),
    // If neither the day of the month nor the weekday begins with `*`, at least one of the two has to match; otherwise
    // both have to.
    ("0 0 1,15 * 1", "*-*-01,15 00:00:00; Mon *-*-* 00:00:00"),
    ("30 4 1,15 * 5", "*-*-01,15 04:30:00; Fri *-*-* 04:30:00"),
    (
        "0 0 1,*/10 * 1",
        "*-*-01,01/10 00:00:00; Mon *-*-* 00:00:00",
    ),
    ("0 0 */2 * 1", "Mon *-*-01/2 00:00:00"),
    ("0 0 1,15 * */2", "Tue,Thu,Sat,Sun *-*-01,15 00:00:00"),
    ("@yearly", "*-01-01 00:00:00"),
    ("@annually", "*-01-01 00:00:00"),
    ("@monthly", "*-*-01 00:00:00"),
    ("@weekly", "Sun *-*-* 00:00:00"),
    ("@daily", "*-*-* 00:00:00"),
    (" @midnight", "*-*-* 00:00:00"),
    ("@hourly", "*-*-* *:00:00"),
    ("", "1: expected five fields"),
    ("*", "1: expected five fields"),
    (" * * * *", "2: expected five fields"),
    ("* * * * * *", "1: expected five fields"),
    ("@reboot", "1: @reboot has no calendar time"),
    ("\t@fortnightly", "2: unknown word after @"),
    ("@Daily", "1: unknown word after @"),
    ("60 * * * *", "1: minute: value out of range"),
    ("* 24 * * *", "3: hour: value out of range"),
    ("*  * 0 * *", "6: day of the month: value out of range"),
    ("* * * 13 *", "7: month: value out of range"),
    ("* * * *\t8", "9: weekday: value out of range"),
    ("mon * * * *", "1: minute: neither a number nor a name"),
    ("* * * june *", "7: month: neither a number nor a name"),
    ("1,,2 * * * *", "1: minute: neither a number nor a name"),
    ("1-2-3 * * * *", "1: minute: neither a number nor a name"),
    ("* * * * fri-mon", "9: weekday: range runs backwards"),
    ("5/10 * * * *", "1: minute: step after a single value"),
    ("*/0 * * * *", "1: minute: step of zero"),
    ("*/x * * * *", "1: minute: step is not a number"),
    ("*/2/2 * * * *", "1: minute: step is not a number"),
    ("*/10000 * * * *", "1: minute: step above 9999"),
    ("60 24 * * *", "1: minute: value out of range"),
    (
        "0,0,0,0,0,0,0,0,0,0,0,0,0,0,0,0,0,0,0,0,0,0,0,0,0,0,0,0,0,0,0,0,0,0,0,0,0,0,0,0,0,0,0,0,0,0,0,0,0,0,0,0,0,0,0,0,0,0,0,0,0 * * * *",
        "1: minute: more than 60 items",
    ),
];

/// Appends the normal form of an expression in which systemd 252 computes all steps correctly.
fn push_expr(alloc: Global, out: &mut String, expr: &Expr) -> Result<(), Fail> {
    ensure(open_step_flaw(expr).is_none(), "a step without an end")?;
    out.push_str(normal_text(alloc, expr)?.as_str())?;
    Ok(())
}

/// Returns the expressions of time fields, or the column and the message of the error in them.
fn outcome(alloc: Global, text: &str) -> Result<String, Fail> {
    let mut out = String::new(alloc);
    match read_cron(alloc, text) {
        Ok(exprs) => {
            push_expr(alloc, &mut out, &exprs.first)?;
            if let Some(other) = &exprs.other {
                out.push_str("; ")?;
                push_expr(alloc, &mut out, other)?;
            }
        }
        Err(CronFault::NoMemory) => return Err("out of memory".into()),
        Err(fault) => {
            let column = fault_start(text, fault).saturating_add(1);
            write!(out, "{column}: {fault}")?;
        }
    }
    Ok(out)
}

#[test]
fn time_fields(rt: HostRuntime) -> Result<(), Fail> {
    for (text, expected) in TIME_FIELDS {
        let found = outcome(rt.alloc(), text)?;
        ensure(found.as_str() == expected, text)?;
    }
    Ok(())
}

/// Entries, each with its command and the input of the command, or `-` if it has no input.
static COMMANDS: [(&str, &str, &str); 5] = [
    ("@daily  run it ", "run it", "-"),
    ("@daily mail -s a%b%c", "mail -s a", "b%c"),
    ("@daily date +\\%F", "date +\\%F", "-"),
    ("@daily a\\\\%b", "a\\\\", "b"),
    ("@daily a%", "a", ""),
];

#[test]
fn commands(rt: HostRuntime) -> Result<(), Fail> {
    for (text, command, input) in COMMANDS {
        let lines = read_crontab(rt.alloc(), CrontabFormat::User, text)?;
        for line in &lines {
            match &line.content {
                LineContent::Entry(entry) => {
                    ensure(entry.command == command, text)?;
                    ensure(entry.input.unwrap_or("-") == input, text)?;
                }
                _ => return Err(text.into()),
            }
        }
    }
    Ok(())
}

/// Lines of a crontab, each with the column, the severity and the message of each finding.
static FINDINGS: [(&str, &str); 9] = [
    ("0 0 31 2 * run", "1: warning: the entry never runs\n"),
    ("  0 0 30 2 */2 run", "3: warning: the entry never runs\n"),
    ("0 0 29 2 */7 run", ""),
    (
        "0 0 1 * 1 run",
        "1: warning: the entry runs on days that match the day of the month, and on days that match the weekday\n",
    ),
    (
        "0 0 31 2 7 run",
        "1: warning: the entry runs on days that match the day of the month, and on days that match the weekday\n",
    ),
    ("0 25 * * * run", "3: error: hour: value out of range\n"),
    ("@daily", "7: error: expected a command\n"),
    ("@reboot run", ""),
    ("MAILTO=root", ""),
];

fn push_finding(out: &mut String, finding: &CronFinding<'_>) -> Result<(), Fail> {
    let column = finding.column;
    let severity = if finding.kind.is_error() {
        "error"
    } else {
        "warning"
    };
    write!(out, "{column}: {severity}: ")?;
    finding.kind.push_words(out)?;
    out.push('\n')?;
    Ok(())
}

fn findings_in(alloc: Global, text: &str) -> Result<String, Fail> {
    let mut crontabs = Vec::new(alloc);
    crontabs.push(Crontab {
        name: String::from_str(alloc, "mine")?,
        format: CrontabFormat::User,
        text: String::from_str(alloc, text)?,
    })?;
    let mut out = String::new(alloc);
    for finding in &cron_findings(alloc, crontabs.as_slice())? {
        push_finding(&mut out, finding)?;
    }
    Ok(out)
}

#[test]
fn findings(rt: HostRuntime) -> Result<(), Fail> {
    for (text, expected) in FINDINGS {
        let found = findings_in(rt.alloc(), text)?;
        ensure(found.as_str() == expected, text)?;
    }
    Ok(())
}

/// Texts, each with the expressions of its time as an entry of a crontab, or the error.
static ENTRY_TIMES: [(&str, &str); 9] = [
    ("30 2 * * 1-5", "Mon..Fri *-*-* 02:30:00; "),
    ("  0 0 1 * 1 run", "*-*-01 00:00:00; Mon *-*-* 00:00:00; "),
    ("@daily", "*-*-* 00:00:00; "),
    ("@reboot run", "at boot"),
    ("0 25 * * *", "hour: value out of range"),
    ("@fortnightly", "unknown word after @"),
    ("Mon 9:00", "expected five fields"),
    ("", "expected five fields"),
    ("0 1 * * * a\n0 2 * * * b", "expected five fields"),
];

fn entry_time(alloc: Global, text: &str) -> Result<String, Fail> {
    let mut out = String::new(alloc);
    match read_entry_time(alloc, text) {
        Ok(EntryTime::Times(exprs)) => {
            for text in &exprs.texts(alloc)? {
                out.push_str(text.as_str())?;
                out.push_str("; ")?;
            }
        }
        Ok(EntryTime::Reboot) => out.push_str("at boot")?,
        Err(fault) => fault.push_words(&mut out)?,
    }
    Ok(out)
}

#[test]
fn entry_times(rt: HostRuntime) -> Result<(), Fail> {
    for (text, expected) in ENTRY_TIMES {
        let found = entry_time(rt.alloc(), text)?;
        ensure(found.as_str() == expected, text)?;
    }
    Ok(())
}
