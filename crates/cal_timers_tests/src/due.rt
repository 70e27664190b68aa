//! Tests of `due` for values of settings that no transcript has.

use crate::answers::expect;
use cal_library_tests::memory::Item;
use std::test::Fail;

/// What is printed if the run isn't due.
const NOT_DUE: &str = "/t/a.timer: not due: Tue 2024-01-02 02:00:00 UTC is an exception\n";

/// Lines of a timer that elapses at 01:00 and at 02:00, with an exception at 02:00; and whether its run at 02:00 is
/// due, because it can be as late as an hour for its elapse, or because it can have another trigger.
static RUNS: [(&str, bool); 9] = [
    ("AccuracySec=1h\n", true),
    ("AccuracySec=3599s\n", false),
    // The sum of both spans is an hour less one microsecond, which is rounded up.
    ("AccuracySec=59min\nRandomizedDelaySec=59.999999s\n", true),
    // The last valid value counts, and an empty value isn't valid.
    ("AccuracySec=1h\nAccuracySec=1s\n", false),
    (
        "AccuracySec=1s\nAccuracySec=1h\nAccuracySec=\nAccuracySec=an hour\n",
        true,
    ),
    // Another setting with the same kind of value doesn't count.
    ("JitterSec=1h\n", false),
    // Other triggers don't count if there is an elapse at the time of the run.
    ("OnBootSec=1h\n", false),
    // The catch-up of a persistent timer isn't considered at `--now`.
    ("Persistent=true\n", false),
    ("X-ExceptOnCalendar=\n", true),
];

#[test]
fn runs(rt: HostRuntime) -> Result<(), Fail> {
    for (lines, is_due) in RUNS {
        let text = format!(in rt.alloc();
            "[Timer]\nOnCalendar=01:00\nOnCalendar=02:00\nX-ExceptOnCalendar=02:00\n{lines}"
        )?;
        let items = [("/t/a.timer", Item::File(text.as_bytes()))];
        let expected = if is_due { "" } else { NOT_DUE };
        expect(
            rt.alloc(),
            &items,
            "due|/t/a.timer|--utc|--now=@1704160800",
            expected,
        )?;
    }
    Ok(())
}
