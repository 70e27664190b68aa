//! Command lines: what valid arguments ask for, and the errors of invalid ones.

use cal_command::{Ask, CommandFault, LocalZone, ZoneItem};
use cal_library_tests::shared::ensure;
use cal_request::Verb;
use std::alloc::Global;
use std::test::Fail;

/// Parses the arguments in `line`, which are separated by `|`.
fn read(alloc: Global, line: &str) -> Result<Result<Ask, CommandFault>, Fail> {
    let arguments: Vec<&str> = line.split('|').collect(alloc)?;
    Ok(Ask::of(alloc, arguments.as_slice()))
}

/// Returns the message of an error, or one word in place of a whole usage text or help text.
fn message(fault: &CommandFault) -> &str {
    match fault {
        CommandFault::Usage(_) => "usage",
        CommandFault::Help(_) => "help",
        fault => fault.words(),
    }
}

/// Appends what the arguments in `line` ask for, or the message of their error.
fn push_answer(alloc: Global, shown: &mut String, line: &str) -> Result<(), Fail> {
    match read(alloc, line)? {
        Ok(ask) => push_ask(alloc, shown, &ask),
        Err(fault) => Ok(shown.push_str(message(&fault))?),
    }
}

/// Appends the verb, the iterations, the base time if it was given, the present if it was given, the local zone unless
/// it is UTC, the zone files, and the texts.
fn push_ask(alloc: Global, line: &mut String, ask: &Ask) -> Result<(), Fail> {
    line.push_str(match ask.request.verb {
        Verb::Calendar => "calendar",
        Verb::Timer => "timer",
        Verb::Timestamp => "timestamp",
        Verb::Timespan => "timespan",
    })?;
    let count = ask.request.iterations;
    line.push_str(format!(in alloc; " {count}")?.as_str())?;
    if let Some(base) = &ask.request.base {
        line.push_str(" after ")?;
        line.push_str(base.as_str())?;
    }
    if let Some(now) = ask.now {
        let seconds = now.secs();
        line.push_str(format!(in alloc; " now {seconds}")?.as_str())?;
    }
    push_local(alloc, line, &ask.local)?;
    push_zones(line, ask.zones.as_slice())?;
    push_texts(line, ask.request.texts.as_slice())
}

/// Appends the texts, with a `|` before each of them.
fn push_texts(line: &mut String, texts: &[String]) -> Result<(), Fail> {
    for text in texts {
        line.push('|')?;
        line.push_str(text.as_str())?;
    }
    Ok(())
}

/// Appends the local zone, unless it is UTC.
fn push_local(alloc: Global, line: &mut String, local: &LocalZone) -> Result<(), Fail> {
    match local {
        LocalZone::Utc => {}
        LocalZone::Offset(seconds) => {
            line.push_str(format!(in alloc; " ahead {seconds}")?.as_str())?;
        }
        LocalZone::Posix(rule) => {
            line.push_str(" rule ")?;
            line.push_str(rule.as_str())?;
        }
        LocalZone::Name(name) => {
            line.push_str(" in ")?;
            line.push_str(name.as_str())?;
        }
    }
    Ok(())
}

fn push_zones(line: &mut String, zones: &[ZoneItem]) -> Result<(), Fail> {
    for zone in zones {
        line.push_str(" with ")?;
        line.push_str(zone.name.as_str())?;
        line.push_str(" of ")?;
        line.push_str(zone.path.as_str())?;
    }
    Ok(())
}

/// Expects the arguments in `line` to be shown as `want`.
fn expect_shown(alloc: Global, line: &str, want: &str) -> Result<(), Fail> {
    let mut shown = String::new(alloc);
    push_answer(alloc, &mut shown, line)?;
    ensure(shown.as_str() == want, line)
}

/// Expects the arguments on each line to be shown as the text after the arrow.
fn check(alloc: Global, lines: &str) -> Result<(), Fail> {
    for line in lines.lines() {
        let (arguments, want) = line.split_once(" -> ").ok_or("no arrow")?;
        expect_shown(alloc, arguments, want)?;
    }
    Ok(())
}

/// Arguments of every verb, options between and after the texts, and values up to their limits.
const COMMANDS: &str = "\
calendar|--iterations=2|--now=@1704067200|*-*-* 12:30:00 -> calendar 2 now 1704067200|*-*-* 12:30:00
calendar|a -> calendar 1|a
calendar|--base-time=today|a|b -> calendar 1 after today|a|b
calendar||b -> calendar 1||b
timer|--iterations=3|--base-time=@5|f -> timer 3 after @5|f
timer| -> timer 1|
timestamp|--now=@7|--local=utc|a|b -> timestamp 1 now 7|a|b
timestamp|--|-5min -> timestamp 1|-5min
timespan|1h|2h -> timespan 1|1h|2h
timespan|--|-1h|--help -> timespan 1|-1h|--help
calendar|a|--iterations=2|b|--now=@3|c -> calendar 2 now 3|a|b|c
calendar|a|--iterations|2|b -> calendar 2|a|b
timer|f|--iterations=2 -> timer 2|f
calendar|--now=@3|--|a|--iterations=2 -> calendar 1 now 3|a|--iterations=2
calendar|a|--|b -> calendar 1|a|b
calendar|a|--|--|b -> calendar 1|a|--|b
calendar|a|-- -> calendar 1|a
timer|--|-f -> timer 1|-f
timestamp|help|calendar -> timestamp 1|help|calendar
calendar|--iterations=1|a -> calendar 1|a
calendar|--iterations=1000000|a -> calendar 1000000|a
calendar|--iterations=007|a -> calendar 7|a
calendar|--now=@0|a -> calendar 1 now 0|a
calendar|--now=@00001|a -> calendar 1 now 1|a
calendar|--now=@7258211998|a -> calendar 1 now 7258211998|a
calendar|--local=UTC|a -> calendar 1|a
calendar|--local=uTc|a -> calendar 1|a
calendar|--local=+25:59|daily -> calendar 1 ahead 93540|daily
calendar|--local=-25:59|daily -> calendar 1 ahead -93540|daily
calendar|--local=+00:00|a -> calendar 1 ahead 0|a
calendar|--local=-00:30|a -> calendar 1 ahead -1800|a
calendar|--local=posix:|daily -> calendar 1 rule |daily
calendar|--local=posix:CET-1|a -> calendar 1 rule CET-1|a
calendar|--local=Mars/One|daily -> calendar 1 in Mars/One|daily
calendar|--local=posix|a -> calendar 1 in posix|a
calendar|--zones=A=f,A=f|daily -> calendar 1 with A of f with A of f|daily
calendar|--zones=Test/Fixed=a=b|a -> calendar 1 with Test/Fixed of a=b|a
timestamp|--zones=A==|a -> timestamp 1 with A of =|a
";

/// Bad values, requests for help or the version, and unknown verbs. If several options have bad values, only the first
/// one in the order `--iterations`, `--now`, `--zones`, `--local` is reported. A missing text is reported before a bad
/// value. After `--`, `--help` is a text.
const OTHERS: &str = "\
calendar|--iterations=0|--now=5|daily -> bad iterations
calendar|--local=5x|--zones=x|--now=5|--iterations=0|daily -> bad iterations
calendar|--iterations=1000001|daily -> bad iterations
calendar|--local=5x|--zones=x|--now=5|daily -> bad now
calendar|--local=5x|--zones=x|daily -> bad zones
calendar|--iterations=0|daily -> bad iterations
calendar|--now=5|daily -> bad now
calendar|--zones=x|daily -> bad zones
calendar|--local=5x|daily -> bad local zone
calendar|--local=+26:00|daily -> bad local zone
calendar|--local=5x -> usage
--help -> help
-h -> help
--version -> help
-V -> help
calendar|--help -> help
timestamp|-h -> help
timespan|a|--help -> help
timer|--help|--nope -> help
help -> help
help|timer -> help
calendar|--|--help -> calendar 1|--help
frobnicate|a -> usage
 -> usage
";

#[test]
fn lines(rt: HostRuntime) -> Result<(), Fail> {
    check(rt.alloc(), COMMANDS)?;
    check(rt.alloc(), OTHERS)
}

/// Without any arguments, `clap` reports that the verb is missing.
#[test]
fn no_arguments(rt: HostRuntime) -> Result<(), Fail> {
    let Err(CommandFault::Usage(text)) = Ask::of(rt.alloc(), &[]) else {
        return Err("no arguments".into());
    };
    let start = "error: 'calendar-analyze' requires a subcommand but one was not provided\n";
    ensure(text.as_str().starts_with(start), "no arguments")
}
