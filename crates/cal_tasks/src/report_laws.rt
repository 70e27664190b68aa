//! Laws of the reports. Each law is a function with an empty body, whose contract states the law.

ghost use Rattle.std.specs.Prelude.{◌≡◌, ◌↔◌, ◌+◌, ◌++◌, ◌-ℤ◌, ◌≤ℤ◌, ℕ, ℤ, List, [], None, Some, filter, map, pos, take, true, IsPermutation, IsSortedBy, IsSortedByKey};
ghost use Rattle.std.specs.List.{last_or};
ghost use Rattle.std.specs.Ordering.{int_cmp};
ghost use Rattle.cal_load.specs.declared.loaded.Loaded.{Loaded};
ghost use Rattle.cal_load.specs.declared.loaded.LoadedTimer.{LoadedTimer};
ghost use Rattle.cal_load.specs.declared.timing.RunTiming.{RunTiming};
ghost use Rattle.cal_load.specs.rules.CalendarZones.{exceptions_in};
ghost use Rattle.cal_timers_report.specs.rules.ReportView.{ElapseView, TimerView, UnitView, is_due};
ghost use Rattle.cal_rising.specs.rules.Elements.{Has};
ghost use Rattle.cal_zone.specs.declared.instant.Instant.{Instant};
ghost use Rattle.cal_tasks.specs.declared.present.Present.{Present};
ghost use Rattle.cal_tasks.specs.declared.due.BootTime.{BootTime};
ghost use Rattle.cal_tasks.specs.declared.due.DueRun.{DueRun};
ghost use Rattle.cal_tasks.specs.rules.BetweenLaw.{IsElapseRow, elapses_then, row_at, rows_at};
ghost use Rattle.cal_tasks.specs.rules.BetweenReport.{AreBetween};
ghost use Rattle.cal_tasks.specs.rules.DueRun.{IsDueRun, IsExcepted, IsOnlyWithin, IsWithin, MayCatchUp, run_seen};
ghost use Rattle.cal_tasks.specs.rules.LastElapse.{IsLastElapse, IsPastElapse};
ghost use Rattle.cal_tasks.specs.rules.ListLaw.{is_sooner, timer_row};
ghost use Rattle.cal_tasks.specs.rules.ListReport.{IsListOf, failed_rows, masked_rows};
ghost use Rattle.cal_tasks.specs.rules.LoadedElapses.{elapses_in};
ghost use Rattle.cal_tasks.specs.rules.SameReport.{side_of};
ghost use Rattle.cal_tasks.specs.rules.ShowLaw.{AreFirstElapses};
ghost use Rattle.cal_tasks.specs.rules.ShowReport.{IsShownTimer};
ghost use Rattle.cal_tasks.specs.rules.Unguarded.{UnguardedView};

/// `list` has exactly one row for each loaded timer, each masked unit that it is given, and each unit that fails to
/// load.
pub fn list_has_one_row_for_each_unit()
    ensures { (at : Present) (loaded : Loaded) (masked : List (List ℕ)) (unguarded : List UnguardedView) (rows : List UnitView) → IsListOf at loaded masked unguarded rows
        → IsPermutation ((map (timer_row at loaded unguarded) loaded.timers.items ++ masked_rows masked) ++ failed_rows loaded.faults.items) rows }
{}

/// No row of `list` has a sooner next elapse than the row before it. Rows without a next elapse come last.
pub fn list_has_the_soonest_first()
    ensures { (at : Present) (loaded : Loaded) (masked : List (List ℕ)) (unguarded : List UnguardedView) (rows : List UnitView) → IsListOf at loaded masked unguarded rows
        → IsSortedBy (λ x y. is_sooner x.next y.next) rows }
{}

/// `between` has a row for each elapse of each timer at or after `from` and before `before`, and no other row. The rows
/// are sorted by instant. Those of an instant are those of the timers that elapse then, each once, in their order.
pub fn between_has_one_row_for_each_elapse()
    ensures rows { (at : Present) (from before : ℤ) (timers : List LoadedTimer) (rows : List ElapseView) → AreBetween at from before timers rows
        → (row : ElapseView) → Has rows row ↔ IsElapseRow at from before timers row }
    ensures each { (at : Present) (from before : ℤ) (timers : List LoadedTimer) (rows : List ElapseView) → AreBetween at from before timers rows
        → (secs : ℤ) → rows_at secs rows ≡ map (row_at secs) (filter (elapses_then at from before secs) timers) }
    ensures rising { (at : Present) (from before : ℤ) (timers : List LoadedTimer) (rows : List ElapseView) → AreBetween at from before timers rows
        → IsSortedByKey (λ row. row.secs) int_cmp rows }
{}

/// The elapses of a shown timer are its first `count` after the present, or all of them if there are fewer. If the timer
/// is shown again at the last of them, in the same local zone, the next elapses follow: none is left out, and none is
/// shown twice.
pub fn show_has_the_first_elapses()
    ensures first { (at : Present) (count : ℕ) (warnings : List (List ℕ)) (unguarded : List UnguardedView) (timer : LoadedTimer) (view : TimerView)
        → IsShownTimer at count warnings unguarded timer view → AreFirstElapses at timer count view.elapses }
    ensures rest { (at later : Present) (count more : ℕ) (warnings others : List (List ℕ)) (unguarded those : List UnguardedView) (timer : LoadedTimer) (view again : TimerView)
        → IsShownTimer at count warnings unguarded timer view → IsShownTimer later more others those timer again
        → later.local ≡ at.local → last_or None view.elapses ≡ Some later.now.secs
        → view.elapses ++ again.elapses ≡ take (count + more) (elapses_in at at.now.secs timer) }
{}

/// `same` finds no difference of the elapses exactly if both timers have the same elapses after the present.
pub fn same_finds_every_difference()
    ensures { (at : Present) (one other : LoadedTimer)
        → (((side_of at one other).only ≡ None) × ((side_of at other one).only ≡ None))
        ↔ (elapses_in at at.now.secs one ≡ elapses_in at at.now.secs other) }
{}

/// There is only one answer to the question whether a run is due: two answers have the same report.
pub fn a_run_is_due_or_not()
    ensures { (at : Present) (timer : LoadedTimer) (timing : RunTiming) (boot : BootTime) (one other : DueRun) → IsDueRun at timer timing boot one
        → IsDueRun at timer timing boot other → run_seen one ≡ run_seen other }
{}

/// An elapse of the timer is one that `list` computes, so it isn't an exception. A run is due if the timer has an elapse
/// in the last `reach` seconds up to the run, or if the last elapse of its expressions is an elapse of the timer.
pub fn wanted_runs_are_due()
    ensures within { (at : Present) (timer : LoadedTimer) (timing : RunTiming) (boot : BootTime) (run : DueRun) (elapse : Instant) → elapse.secs ≤ℤ at.now.secs
        → IsWithin at timing.reach elapse.secs → Has (elapses_in at (elapse.secs -ℤ pos 1) timer) elapse.secs → IsDueRun at timer timing boot run
        → is_due (run_seen run) ≡ true }
    ensures last { (at : Present) (timer : LoadedTimer) (timing : RunTiming) (boot : BootTime) (run : DueRun) (secs : ℤ) → IsLastElapse at timer [] secs
        → Has (elapses_in at (secs -ℤ pos 1) timer) secs → IsDueRun at timer timing boot run → is_due (run_seen run) ≡ true }
{}

/// Each run of a timer without exceptions is due. So is each run that only another trigger can have started: that of a
/// timer with other triggers whose expressions have no elapse in the last `reach` seconds.
pub fn runs_without_an_exception_are_due()
    ensures without { (at : Present) (timer : LoadedTimer) (timing : RunTiming) (boot : BootTime) (run : DueRun) → exceptions_in timer.calendar ≡ []
        → IsDueRun at timer timing boot run → is_due (run_seen run) ≡ true }
    ensures others { (at : Present) (timer : LoadedTimer) (timing : RunTiming) (boot : BootTime) (run : DueRun) → timing.has_other_triggers ≡ true
        → ((secs : ℤ) → IsPastElapse at timer [] secs → IsWithin at timing.reach secs → ⊥) → IsDueRun at timer timing boot run → is_due (run_seen run) ≡ true }
{}

/// If the expressions have exactly one elapse in the last `reach` seconds, and the run doesn't make up for an earlier
/// one, the run is due if and only if no exception elapses at this elapse.
pub fn a_run_for_one_elapse_is_due_unless_excepted()
    ensures { (at : Present) (timer : LoadedTimer) (timing : RunTiming) (boot : BootTime) (run : DueRun) (only : ℤ) → IsOnlyWithin at timer timing.reach only
        → (MayCatchUp at timing boot only → ⊥) → IsDueRun at timer timing boot run → (is_due (run_seen run) ≡ true) ↔ (IsExcepted at timer only → ⊥) }
{}
