//! What loading results in: timers, the names of what is masked, and errors.

ghost use Rattle.std.specs.Prelude.{◌≡◌, [], OnOk, map};
ghost use Rattle.cal_timer.specs.rules.TimerView.{shown};
ghost use Rattle.cal_load.specs.rules.CalendarZones.{HasZonesFor, exceptions_in, expressions_in};

use crate::calendar::Calendar;
use crate::fault::{TargetLoadFault, push_fault};
use crate::names::has_unit;
use crate::target_fault::TargetFault;
use crate::timer_files::TimerFiles;
use cal_timer::TimerLine;
use cal_zone::ZoneTable;
use std::alloc::{AllocError, Global};
use std::collections::BTreeSet;

/// A timer, and everything that its elapses depend on except the local zone.
#[derive(Drop)]
pub struct LoadedTimer {
    /// The unit's own name, such as `backup.timer`; or the path of a file that was read by itself; or the expressions,
    /// separated by commas.
    pub name: String,
    /// The files that were read, with the lines in them that are ignored. A timer made of expressions has no files.
    pub files: TimerFiles,
    /// The valid expressions and exceptions in these files whose zone can be used, or the expressions that were given
    /// by themselves. An expression that was given by itself has its index, counted from 1, as its line number.
    pub calendar: Calendar,
    /// The zones that the expressions and exceptions name.
    pub zones: ZoneTable,
    /// The expressions whose specifiers depend on more than the timer's name, and then the other settings that decide
    /// when the timer starts a unit, and which unit that is; each as `KEY=VALUE`, in the order of the files.
    pub notes: Vec<String>,
    pub ghost zoned: { HasZonesFor zones calendar },
}

impl LoadedTimer {
    /// Returns the calendar expressions in the order of the files. The list is empty if the unit is started only by
    /// other settings, or by expressions that depend on more than the timer's name.
    pub fn lines(&self) -> &[TimerLine]
        ensures { map shown result.now ≡ expressions_in self.now.calendar }
    {
        self.calendar.lines()
    }

    /// Returns the exceptions in the order of the files. When an exception elapses, the timer doesn't.
    pub fn exceptions(&self) -> &[TimerLine]
        ensures { map shown result.now ≡ exceptions_in self.now.calendar }
    {
        self.calendar.exceptions()
    }
}

/// What [`crate::load_timers`] and [`crate::load_expressions`] return: timers, the names of what is masked, and errors.
#[derive(Drop)]
pub struct Loaded {
    /// The timers in the order of the targets. Timers of a folder are sorted by their stems, and so are all timers if
    /// there are no targets.
    pub timers: Vec<LoadedTimer>,
    /// The names of masked units and the paths of masked files.
    pub masked: Vec<String>,
    /// The units, files, folders and expressions that couldn't be loaded, each with the reason.
    pub faults: Vec<TargetFault>,
    /// The stems of the units that other units start, or `None` unless all units were asked for. A stem is a unit's own
    /// name without its suffix `.timer`.
    pub started: Option<BTreeSet<String>>,
}

/// What was found for the name of a unit or the path of a file.
#[derive(Drop)]
pub(crate) enum LoadedTarget {
    Timer(LoadedTimer),
    Masked,
}

impl Loaded {
    ghost use Rattle.cal_load.specs.rules.AllUnits.{IsPushed, is_disabled, shown_stems};

    pub(crate) fn new(alloc: Global) -> Loaded
        ensures timers { result.timers.items ≡ [] }
        ensures masked { result.masked.items ≡ [] }
        ensures faults { result.faults.items ≡ [] }
    {
        Loaded {
            timers: Vec::new(alloc),
            masked: Vec::new(alloc),
            faults: Vec::new(alloc),
            started: None,
        }
    }

    /// Returns whether no other unit starts the timer with this name. Returns `false` unless all units were asked for.
    pub fn is_disabled(&self, name: &str) -> bool
        ensures { result ≡ is_disabled (shown_stems self.now.started) name.now }
    {
        match &self.started {
            Some(started) => !has_unit(started, name),
            None => false,
        }
    }

    /// Appends what was found for a unit's name or a path, or the reason why it can't be loaded.
    pub(crate) fn push(
        &mut self,
        alloc: Global,
        name: &str,
        found: Result<LoadedTarget, TargetLoadFault>,
    ) -> Result<(), AllocError>
        ensures { OnOk result (IsPushed name.now found self.old self.new) }
    {
        match found {
            Ok(LoadedTarget::Timer(timer)) => self.timers.push(timer)?,
            Ok(LoadedTarget::Masked) => self.masked.push(String::from_str(alloc, name)?)?,
            Err(fault) => push_fault(alloc, &mut self.faults, name, fault)?,
        }
        Ok(())
    }
}
