//! The elapses of one timer in a range of instants.

ghost use Rattle.std.specs.Prelude.{◌≡◌, ◌++◌, ◌∷◌, [], OnOk, cond, map};
ghost use Rattle.cal_tasks.specs.rules.SeveralTimers.{elapse_seen, range_of_one};

use crate::timer_elapse::TimerElapse;
use cal_plan::Instants;
use cal_rising::{NoMemory, Rising};
use cal_zone::Instant;

/// Appends the elapses of one timer that are at or after `from` and before `before`. `elapses` must be the source of
/// its elapses after `from`, and `elapses_at_from` says whether the timer elapses at `from`.
pub(crate) fn add_range<S: Rising>(
    found: &mut Vec<TimerElapse>,
    timer: usize,
    elapses_at_from: bool,
    elapses: &mut Instants<S>,
    from: Instant,
    before: Instant,
) -> Result<(), NoMemory>
    ensures { OnOk result (map elapse_seen found.new.items ≡ map elapse_seen found.old.items
        ++ range_of_one from.secs before.secs timer (cond elapses_at_from (from.secs ∷ []) [] ++ elapses.old)) }
{
    if elapses_at_from && from.secs() < before.secs() {
        found.push(TimerElapse {
            instant: from,
            timer,
        })?;
    }
    add_later(found, timer, elapses, from, before)
}

/// Appends the elapses that are at or after `from` and before `before`.
fn add_later<S: Rising>(
    found: &mut Vec<TimerElapse>,
    timer: usize,
    elapses: &mut Instants<S>,
    from: Instant,
    before: Instant,
) -> Result<(), NoMemory>
    ensures { OnOk result (map elapse_seen found.new.items
        ≡ map elapse_seen found.old.items ++ range_of_one from.secs before.secs timer elapses.old) }
{
    while let Some(instant) = elapses.next() {
        if instant.secs() >= before.secs() {
            return Ok(());
        }
        if instant.secs() < from.secs() {
            continue;
        }
        found.push(TimerElapse { instant, timer })?;
    }
    Ok(())
}
