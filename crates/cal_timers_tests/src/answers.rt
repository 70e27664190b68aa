//! Tests of `answer_arguments`: an answer of each verb as text and as JSON, and the error lines about what can't be
//! read, which a transcript can't show if its user may read everything.

use cal_answers::answer_arguments;
use cal_bytes::{Faulty, Port, Then};
use cal_library_tests::memory::{Item, MemorySystem};
use cal_library_tests::shared::{ensure, zone_file};
use cal_timers_report::Style;
use std::alloc::Global;
use std::test::Fail;

/// The style of a terminal.
const STYLE: Style = Style {
    width: 80,
    is_bold: true,
};

/// Returns what is printed for the arguments in `line`, which are separated by `|`: standard output followed by
/// standard error. The present is Mon 2024-01-01 00:00:00 UTC.
fn answer(alloc: Global, items: &[(&str, Item<'_>)], line: &str) -> Result<Vec<u8>, Fail> {
    let arguments: Vec<&str> = line.split('|').collect(alloc)?;
    let mut out = Port::new(Vec::new(alloc));
    let mut err = Port::new(Vec::new(alloc));
    answer_arguments(
        alloc,
        MemorySystem::new(items),
        arguments.as_slice(),
        STYLE,
        &mut out,
        &mut err,
    );
    let mut printed = out.into_inner();
    printed.extend_from_slice(err.into_inner().as_slice())?;
    Ok(printed)
}

pub(crate) fn expect(
    alloc: Global,
    items: &[(&str, Item<'_>)],
    line: &str,
    expected: &str,
) -> Result<(), Fail> {
    let found = answer(alloc, items, line)?;
    ensure(found.as_slice() == expected.as_bytes(), line)
}

/// Arguments, and what is printed for them on the machine in `answers`: it has a unit with an alias and drop-ins, two
/// other units, and two timer files that aren't units.
static ANSWERS: [(&str, &str); 17] = [
    (
        "list",
        "\x1b[1mNEXT                            LEFT  UNIT     NOTES\x1b[0m
Mon 2024-01-01 12:00:00 +01:00  11h   a.timer  exceptions ignored by systemd  R\u{2026}
",
    ),
    (
        "list|--json|a",
        r#"[
  {
    "unit": "a.timer",
    "next": "Mon 2024-01-01 12:00:00 +01:00",
    "unix": 1704106800,
    "left": "11h",
    "notes": [
      "exceptions ignored by systemd",
      "RandomizedDelaySec=1h"
    ]
  }
]
"#,
    ),
    (
        "list|--user|-a",
        "\x1b[1mNEXT                            LEFT  UNIT         NOTES\x1b[0m
Mon 2024-01-01 02:00:00 +01:00  1h    notes.timer  disabled
",
    ),
    (
        "show|b|-n|2",
        "\x1b[1ma.timer\x1b[0m
  File:      /etc/systemd/system/a.timer
             /etc/systemd/system/a.timer.d/x.conf
             /run/systemd/system/b.timer.d/y.conf
  Calendar:  Mon..Fri *-*-* 18:00:00
             *-*-* 12:00:00 Test/Fixed
  Except:    Tue *-*-* 18:00:00
  Also:      exceptions ignored by systemd
             RandomizedDelaySec=1h
  Last:      Sun 2023-12-31 12:00:00 +01:00  13h ago
  Next:      Mon 2024-01-01 12:00:00 +01:00  in 11h
             Mon 2024-01-01 18:00:00 +01:00  in 17h
",
    ),
    (
        "next|-n|1|daily",
        "\x1b[1mdaily\x1b[0m
  Calendar:  *-*-* 00:00:00
  Last:      Mon 2024-01-01 00:00:00 +01:00  1h ago
  Next:      Tue 2024-01-02 00:00:00 +01:00  in 23h
",
    ),
    (
        "next|--json|2001-1-1",
        r#"[
  {
    "unit": "2001-1-1",
    "files": [],
    "expressions": [
      {
        "text": "2001-1-1",
        "normal": "2001-01-01 00:00:00",
        "file": null,
        "line": null
      }
    ],
    "exceptions": [],
    "last": {
      "local": "Mon 2001-01-01 00:00:00 +01:00",
      "unix": 978303600,
      "ago": "22y 11month 4w 1d 17h 30min"
    },
    "elapses": [],
    "notes": [],
    "warnings": [],
    "clock": []
  }
]
"#,
    ),
    (
        "between|Mon 12:00|@1704106801|a",
        "Mon 2024-01-01 12:00:00 +01:00  a.timer\n",
    ),
    (
        "between|@1704106800|@1704106801|a|--json",
        r#"[
  {
    "unit": "a.timer",
    "local": "Mon 2024-01-01 12:00:00 +01:00",
    "unix": 1704106800
  }
]
"#,
    ),
    (
        "same|a|daily",
        "only a.timer: Mon 2024-01-01 12:00:00 +01:00
only daily: Tue 2024-01-02 00:00:00 +01:00
only a.timer has RandomizedDelaySec=1h
",
    ),
    (
        "same|--json|2024-02-03|2024-2-3",
        "{\n  \"same\": true,\n  \"only\": [],\n  \"settings\": [],\n  \"read_as\": []\n}\n",
    ),
    ("due|b", ""),
    (
        "due|a|--now=@1704214800",
        "a.timer: not due: Tue 2024-01-02 18:00:00 +01:00 is an exception\n",
    ),
    (
        "due|--json|a|--now=@1704214800",
        r#"{
  "unit": "a.timer",
  "due": false,
  "elapse": {
    "local": "Tue 2024-01-02 18:00:00 +01:00",
    "unix": 1704214800
  }
}
"#,
    ),
    (
        "lint|/t/wrong.timer",
        "/t/wrong.timer:2:12: \x1b[1;31merror:\x1b[0m not a valid calendar expression: unknown weekday
OnCalendar=Mo 9am
           ^~
  write instead: Mon 09:00
/t/wrong.timer:3:12: warning: this is a month and a day, not a range of weekdays
OnCalendar=1-5 9:00
           ^~~
/t/wrong.timer:4:12: \x1b[1;31merror:\x1b[0m systemd 252 doesn't accept a range of weekdays that runs past Sunday
OnCalendar=Sat..Mon
           ^~~~~~~~
  write instead: Mon,Sat,Sun *-*-* 00:00:00
/t/wrong.timer:5:1: warning: unknown key in section [Timer]
OnCalender=daily
^~~~~~~~~~
2 errors, 2 warnings
",
    ),
    (
        "lint|/t/idle.timer",
        "/t/idle.timer:2: warning: the expression never elapses\n1 warning\n",
    ),
    (
        "lint|d",
        "/etc/systemd/system/d.timer:3: warning: not a time span once its specifiers are filled in, so systemd ignores the line
/etc/systemd/system/d.timer:4: warning: systemd ignores this line, as a timer can't start itself
/etc/systemd/system/d.timer:6: warning: systemd ignores this line, as an earlier Unit= counts
d.timer: \x1b[1;31merror:\x1b[0m e@d.target has no file in the search path, so systemd refuses to start the timer
1 error, 3 warnings
",
    ),
    (
        "lint|--json|/t/idle.timer",
        r#"[
  {
    "file": "/t/idle.timer",
    "line": 2,
    "column": null,
    "kind": "warning",
    "message": "the expression never elapses",
    "suggestion": null
  }
]
"#,
    ),
];

#[test]
fn answers(rt: HostRuntime) -> Result<(), Fail> {
    let fixed = zone_file(rt.alloc())?;
    let items = [
        (
            "/etc/localtime",
            Item::Link("/usr/share/zoneinfo/Test/Fixed"),
        ),
        (
            "/usr/share/zoneinfo/Test/Fixed",
            Item::File(fixed.as_slice()),
        ),
        (
            "/etc/systemd/system/a.timer",
            Item::File(b"[Timer]\nOnCalendar=Mon..Fri 18:00\nRandomizedDelaySec=1h\n"),
        ),
        (
            "/etc/systemd/system/a.timer.d/x.conf",
            Item::File(b"[Timer]\nX-ExceptOnCalendar=Tue 18:00\n"),
        ),
        (
            "/run/systemd/system/b.timer",
            Item::Link("/etc/systemd/system/a.timer"),
        ),
        (
            "/run/systemd/system/b.timer.d/y.conf",
            Item::File(b"[Timer]\nOnCalendar=12:00 Test/Fixed\n"),
        ),
        (
            "/etc/systemd/system/d.timer",
            Item::File(
                b"[Timer]\nOnCalendar=daily\nOnBootSec=%i\nUnit=%n\nUnit=e@.target\nUnit=a.service\n",
            ),
        ),
        (
            "/run/systemd/system/timers.target.wants/b.timer",
            Item::Link("../b.timer"),
        ),
        (
            "/home/ann/.config/systemd/user/notes.timer",
            Item::File(b"[Timer]\nOnCalendar=hourly\n"),
        ),
        (
            "/t/wrong.timer",
            Item::File(
                b"[Timer]\nOnCalendar=Mo 9am\nOnCalendar=1-5 9:00\nOnCalendar=Sat..Mon\nOnCalender=daily\n",
            ),
        ),
        (
            "/t/idle.timer",
            Item::File(b"[Timer]\nOnCalendar=2001-1-1\n"),
        ),
    ];
    for (line, expected) in ANSWERS {
        expect(rt.alloc(), &items, line, expected)?;
    }
    Ok(())
}

/// A path, what is at this path, arguments, and what is printed for them. The machine also has a unit with an alias,
/// and two timer files, one of which names a zone.
type Row = (&'static str, Item<'static>, &'static str, &'static str);

static UNREADABLE: [Row; 16] = [
    // A drop-in or a folder of drop-ins that can't be read is missing from the unit's report, and nothing else is.
    (
        "/etc/systemd/system/a.timer.d",
        Item::Closed,
        "show|a|--utc",
        "\x1b[1ma.timer\x1b[0m
  File:      /usr/lib/systemd/system/a.timer
             /run/systemd/system/b.timer.d/y.conf
  Also:      OnBootSec=1min
             OnStartupSec=1min
/etc/systemd/system/a.timer.d: cannot be read
",
    ),
    (
        "/etc/systemd/system/a.timer.d/x.conf",
        Item::Locked,
        "show|b|--utc",
        "\x1b[1ma.timer\x1b[0m
  File:      /usr/lib/systemd/system/a.timer
             /run/systemd/system/b.timer.d/y.conf
  Also:      OnBootSec=1min
             OnStartupSec=1min
/etc/systemd/system/a.timer.d/x.conf: cannot be read
",
    ),
    (
        "/etc/systemd/system/a.timer.d/x.conf",
        Item::Unnamed,
        "same|a|/t/boot.timer|--utc",
        "same
only a.timer has OnStartupSec=1min
/etc/systemd/system/a.timer.d/x.conf: a link to a path that is not UTF-8
",
    ),
    (
        "/etc/systemd/system/timer.d/x.conf",
        Item::Locked,
        "lint|a|b",
        "/etc/systemd/system/timer.d/x.conf: cannot be read\n",
    ),
    // Each part of the search path that can't be read has one error line, for every verb. The unit is found in another
    // folder, and so are its alias and the drop-in of this alias.
    (
        "/etc/systemd/system",
        Item::Closed,
        "show|a|--utc",
        "\x1b[1ma.timer\x1b[0m
  File:      /usr/lib/systemd/system/a.timer
             /run/systemd/system/b.timer.d/y.conf
  Also:      OnBootSec=1min
             OnStartupSec=1min
/etc/systemd/system: cannot be read
",
    ),
    (
        "/etc/systemd/system",
        Item::Closed,
        "list|-a|--utc",
        "\x1b[1mNEXT  LEFT  UNIT     NOTES\x1b[0m
-     -     a.timer  disabled  OnBootSec=1min  OnStartupSec=1min
/etc/systemd/system: cannot be read
",
    ),
    (
        "/etc/systemd/system/a.timer",
        Item::Hidden,
        "list|b|--utc",
        "\x1b[1mNEXT  LEFT  UNIT     NOTES\x1b[0m
-     -     a.timer  OnBootSec=1min  OnStartupSec=1min
/etc/systemd/system/a.timer: cannot be read
",
    ),
    (
        "/etc/systemd/system/b.timer",
        Item::Unnamed,
        "lint",
        "/etc/systemd/system/b.timer: a link to a path that is not UTF-8\n",
    ),
    (
        "/etc/systemd/system/timers.target.wants",
        Item::Closed,
        "lint",
        "/etc/systemd/system/timers.target.wants: cannot be read\n",
    ),
    // The unit's own file can't be read.
    (
        "/etc/systemd/system/a.timer",
        Item::Locked,
        "show|a|--utc",
        "/etc/systemd/system/a.timer: cannot be read\n",
    ),
    (
        "/etc/systemd/system/a.timer",
        Item::Locked,
        "due|a|--utc",
        "/etc/systemd/system/a.timer: cannot be read\n",
    ),
    // If the zone file of `/etc/localtime` can't be found, `due` doesn't say so, since any error line would make the
    // service fail.
    ("/etc/localtime", Item::Hidden, "due|/t/boot.timer", ""),
    (
        "/t/locked.timer",
        Item::Locked,
        "show|/t/locked.timer|--utc",
        "/t/locked.timer: cannot be read\n",
    ),
    (
        "/usr/share/zoneinfo/X",
        Item::Locked,
        "show|/t/zone.timer|--utc",
        "/t/zone.timer:2: /usr/share/zoneinfo/X: cannot be read\n",
    ),
    (
        "/usr/share/zoneinfo/X",
        Item::Locked,
        "next|12:00 X|--utc",
        "12:00 X: /usr/share/zoneinfo/X: cannot be read\n",
    ),
    (
        "/etc/localtime",
        Item::Hidden,
        "list|/t/boot.timer",
        "\x1b[1mNEXT  LEFT  UNIT           NOTES\x1b[0m
-     -     /t/boot.timer  OnBootSec=1min
calendar-timers: /etc/localtime: no zone file, so the local zone is UTC
",
    ),
];

fn expect_unreadable(alloc: Global, row: Row) -> Result<(), Fail> {
    let (path, item, line, expected) = row;
    let items = [
        (
            "/usr/lib/systemd/system/a.timer",
            Item::File(b"[Timer]\nOnBootSec=1min\n"),
        ),
        ("/usr/lib/systemd/system/a.service", Item::File(b"")),
        (
            "/run/systemd/system/b.timer",
            Item::Link("/usr/lib/systemd/system/a.timer"),
        ),
        (
            "/run/systemd/system/b.timer.d/y.conf",
            Item::File(b"[Timer]\nOnStartupSec=1min\n"),
        ),
        (
            "/t/zone.timer",
            Item::File(b"[Timer]\nOnCalendar=12:00 X\n"),
        ),
        ("/t/boot.timer", Item::File(b"[Timer]\nOnBootSec=1min\n")),
        (path, item),
    ];
    expect(alloc, &items, line, expected)
}

#[test]
fn what_cannot_be_read(rt: HostRuntime) -> Result<(), Fail> {
    for row in UNREADABLE {
        expect_unreadable(rt.alloc(), row)?;
    }
    Ok(())
}

/// How many bytes can be written to standard output, and what `next daily` then results in: the status, standard output
/// and standard error.
type Cut = (usize, u8, &'static str, &'static str);

static CUTS: [Cut; 3] = [
    (0, 1, "", "calendar-timers: output failed\n"),
    (9, 1, "\x1b[1mdaily", "calendar-timers: output failed\n"),
    (
        999,
        0,
        "\x1b[1mdaily\x1b[0m
  Calendar:  *-*-* 00:00:00
  Last:      Mon 2024-01-01 00:00:00 UTC  now
  Next:      Tue 2024-01-02 00:00:00 UTC  in 1d
",
        "",
    ),
];

fn expect_cut(alloc: Global, cut: Cut) -> Result<(), Fail> {
    let (limit, status, out, err) = cut;
    let mut written = Port::new(Faulty::new(Vec::new(alloc), 3, limit, Then::Error));
    let mut lines = Port::new(Vec::new(alloc));
    let ended = answer_arguments(
        alloc,
        MemorySystem::new(&[]),
        &["next", "daily", "--utc", "-n1"],
        STYLE,
        &mut written,
        &mut lines,
    );
    ensure(ended == status, "the status")?;
    ensure(
        written.into_inner().bytes() == out.as_bytes(),
        "standard output",
    )?;
    ensure(
        lines.into_inner().as_slice() == err.as_bytes(),
        "standard error",
    )
}

#[test]
fn outputs_that_fail(rt: HostRuntime) -> Result<(), Fail> {
    for cut in CUTS {
        expect_cut(rt.alloc(), cut)?;
    }
    Ok(())
}
