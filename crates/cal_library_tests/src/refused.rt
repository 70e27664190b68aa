//! Calls that allocate. `tests/refused.py` makes each of their allocations fail in turn.
//!
//! A test succeeds if every allocation succeeds. Otherwise it fails with the call's `NoMemory` or `AllocError`; if the
//! call promises to leave an argument unchanged, or to return it, the test first checks that. `tests/refused.py` checks
//! that a test fails if and only if an allocation has failed.

ghost use Rattle.std.specs.Prelude.{◌≡◌, false};
ghost use Rattle.std.specs.List.Sorted.{IsStrictlySortedBy};
ghost use Rattle.std.specs.Ordering.{int_cmp};

use crate::elapses::elapses_of;
use crate::numbers::{expect_numbers, listed, merge_two};
use crate::searches::{expect_members, put_three};
use crate::shared::{EXCEPT_FILE, SUMMER_TIME, TIMER_FILE, ensure, zone_file};
use crate::timers::{EXCEPT_EXCEPTIONS, EXCEPT_LINES, UNIT_LINES, expect_lists, expect_timer};
use cal_base::{Port, Rules, Zone, ZoneTable, place, read_whole};
use cal_elapse::{Listed, Merge, Pending, Rising};
use cal_read::{Assignments, NumberedText, OwnedAssignment, find_faults, read_texts};
use cal_spec::{fault_span, read_expr};
use std::alloc::{AllocError, Global};
use std::test::Fail;

#[test]
fn a_whole_reader(rt: HostRuntime) -> Result<(), Fail> {
    let bytes = read_whole(rt.alloc(), &mut Port::new(TIMER_FILE), 999)?;
    ensure(bytes.as_slice() == TIMER_FILE, "other bytes")
}

/// Returns whether the zone's clock is an hour ahead of UTC at local midnight on 2024-01-01.
fn is_hour_ahead(zone: Zone<'_>) -> bool {
    place(zone, 1_704_067_200) == Some(1_704_063_600)
}

#[test]
fn a_rule(rt: HostRuntime) -> Result<(), Fail> {
    let rules = Rules::posix(rt.alloc(), SUMMER_TIME)?;
    ensure(is_hour_ahead(Zone::rules(&rules)), "another rule")
}

/// Returns the rules of the file that [`zone_file`] makes.
fn rules_of_file(alloc: Global) -> Result<Rules, Fail> {
    let bytes = zone_file(alloc)?;
    Ok(Rules::file(alloc, "Test/Fixed", &bytes)?)
}

/// Checks that, if `add` fails, the table is unchanged and the rules are returned to the caller.
#[test]
fn a_zone_file_and_a_table(rt: HostRuntime) -> Result<(), Fail> {
    let mut table = ZoneTable::new(rt.alloc());
    match table.add("Test/Fixed", rules_of_file(rt.alloc())?) {
        Ok(()) => match table.find("Test/Fixed") {
            Some(zone) => ensure(is_hour_ahead(zone), "another file"),
            None => Err("not in the table".into()),
        },
        Err((rules, fault)) => {
            let is_unchanged = table.find("Test/Fixed").is_none();
            ensure(
                is_unchanged && is_hour_ahead(Zone::rules(&rules)),
                "changed",
            )?;
            Err(fault.into())
        }
    }
}

static WEEKDAY_LISTS: [&str; 4] = [
    "Sat,Thu,Mon..Wed,Sat..Sun",
    "Wed, 17:48",
    "Sat-Mon",
    "Mon..Sun",
];

#[test]
fn expressions(rt: HostRuntime) -> Result<(), Fail> {
    for text in &WEEKDAY_LISTS {
        read_expr(rt.alloc(), text)?;
    }
    Ok(())
}

/// Once the set of pending instants is created, its functions don't allocate.
#[test]
fn pending_instants(rt: HostRuntime) -> Result<(), Fail> {
    let mut pending = Pending::new(rt.alloc())?;
    put_three(&mut pending, 100, 50)?;
    expect_members(&mut pending, &[50, 100])
}

/// Once the elapses are created, `next` doesn't allocate.
#[test]
fn elapses(rt: HostRuntime) -> Result<(), Fail> {
    let mut elapses = elapses_of(rt.alloc(), "*-2-29 0:0:0", Zone::utc(), 1_552_651_200)?;
    let answers = (elapses.next(), elapses.next());
    ensure(
        answers == (Some(1_582_934_400), Some(1_709_164_800)),
        "leap days",
    )
}

/// Adds a source of these numbers to a merge. If this fails, expects the merge to hand the source back unchanged, and
/// returns the error.
fn add(
    alloc: Global,
    merge: &mut Merge<Listed>,
    numbers: &[i64],
) -> Result<Option<AllocError>, Fail>
    requires new { merge.old.started ≡ false }
    requires sorted { IsStrictlySortedBy int_cmp numbers.now }
    ensures { merge.new.started ≡ false }
{
    match merge.add(listed(alloc, numbers)?) {
        Ok(()) => Ok(None),
        Err((mut handed_back, fault)) => {
            expect_numbers(&mut handed_back, numbers)?;
            Ok(Some(fault))
        }
    }
}

/// Checks that a merge has exactly the lists whose addition didn't run out of memory. Reading from the merge doesn't
/// allocate.
#[test]
fn merged_lists(rt: HostRuntime) -> Result<(), Fail> {
    let mut merge = Merge::new(rt.alloc());
    let one = add(rt.alloc(), &mut merge, &[1, 5, 9])?;
    let two = add(rt.alloc(), &mut merge, &[5, 7])?;
    let numbers: &[i64] = match (one.is_none(), two.is_none()) {
        (true, true) => &[1, 5, 7, 9],
        (true, false) => &[1, 5, 9],
        (false, true) => &[5, 7],
        (false, false) => &[],
    };
    expect_numbers(&mut merge, numbers)?;
    match one.or(two) {
        None => Ok(()),
        Some(fault) => Err(fault.into()),
    }
}

/// Adds an exception, a source whose numbers the merge leaves out. Checks that, if the exception can't be added, it is
/// returned to the caller and the merge is unchanged.
#[test]
fn an_exception(rt: HostRuntime) -> Result<(), Fail> {
    let mut merge = merge_two(rt.alloc(), &[1, 5, 9], &[5, 7])?;
    let exception = listed(rt.alloc(), &[5, 8])?;
    match merge.add_except(exception) {
        Ok(()) => expect_numbers(&mut merge, &[1, 7, 9]),
        Err((mut handed_back, fault)) => {
            expect_numbers(&mut handed_back, &[5, 8])?;
            expect_numbers(&mut merge, &[1, 5, 7, 9])?;
            Err(fault.into())
        }
    }
}

#[test]
fn timer_files(rt: HostRuntime) -> Result<(), Fail> {
    expect_lists(rt.alloc(), TIMER_FILE, UNIT_LINES, &[])?;
    expect_lists(rt.alloc(), EXCEPT_FILE, EXCEPT_LINES, EXCEPT_EXCEPTIONS)
}

#[test]
fn several_texts(rt: HostRuntime) -> Result<(), Fail> {
    let files = [
        NumberedText {
            first: 1,
            text: "[Timer]\nOnCalendar=daily",
        },
        NumberedText {
            first: 1,
            text: "[Timer]\nX-ExceptOnCalendar=Sat \\\n12:00",
        },
    ];
    match read_texts(rt.alloc(), &files) {
        Ok(timer) => expect_timer(&timer, &[(2, "daily")], &[(2, "Sat  12:00")], "the texts"),
        Err(found) => Err(found.fault.into()),
    }
}

#[test]
fn all_faults(rt: HostRuntime) -> Result<(), Fail> {
    let files = [NumberedText {
        first: 1,
        text: "[Timer]\nOnCalendar=Sat,Sun 25:00\nOnCalendar=Mon \\\n12:00\nX-ExceptOnCalendar=7",
    }];
    let found = find_faults(rt.alloc(), &files)?;
    ensure(found.len() == 2, "not two faults")
}

const ASSIGNMENTS: &str = "[Timer]\nOnCalendar=Mon \\\n12:00\nPersistent=yes\n";

/// Expects `assignment` to have the value of the first assignment in [`ASSIGNMENTS`].
fn expect_first(assignment: &Option<OwnedAssignment>) -> Result<(), Fail> {
    match assignment {
        Some(assignment) => ensure(
            assignment.value.as_str() == "Mon  12:00",
            "another assignment",
        ),
        None => Err("no assignment".into()),
    }
}

/// Checks that an assignment isn't skipped if allocation fails: the next call that succeeds returns it.
#[test]
fn the_next_assignment(rt: HostRuntime) -> Result<(), Fail> {
    let mut assignments = Assignments::new("Timer", 1, ASSIGNMENTS);
    match assignments.next(rt.alloc()) {
        Ok(assignment) => expect_first(&assignment),
        Err(fault) => {
            if let Ok(assignment) = assignments.next(rt.alloc()) {
                expect_first(&assignment)?;
            }
            Err(fault.into())
        }
    }
}

#[test]
fn a_word_at_fault(rt: HostRuntime) -> Result<(), Fail> {
    let found = fault_span(rt.alloc(), "Sat,Sun 12:00 UTC 5")?;
    ensure(found == Some(18..19), "another word")
}
