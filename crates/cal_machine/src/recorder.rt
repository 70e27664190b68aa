//! A recorder of what system calls return.

ghost use Rattle.std.specs.Prelude.{◌≡◌};
ghost use Rattle.cal_machine.specs.rules.Machine.{Machine};
ghost use Rattle.cal_machine.specs.rules.Recorded.{AgreesWith, IsHonest, seen_of};
ghost use Rattle.cal_machine.specs.rules.RecordedLemmas.{recorded_agrees};
ghost use Rattle.cal_machine.specs.rules.Seen.{some_machine};

use crate::copies::{copy_bytes, copy_entry, copy_names, copy_value};
use crate::keep::{keep, said};
use crate::system::System;
use crate::tree::{Entry, Names, Tree, TreeFault, Unreadable};
use std::alloc::Global;
use std::collections::BTreeMap;

/// A [`Tree`] that asks each question of a [`System`] once and records the answer, even if it is an error. From then on,
/// it returns the recorded answer. Running out of memory isn't an answer, and is never recorded.
///
/// So its answers are those of a machine that doesn't change, and each of them is one that the system gave.
#[derive(Drop)]
pub struct Recorder<S: System> {
    system: S,
    entries: BTreeMap<String, Result<Entry, Unreadable>>,
    names: BTreeMap<String, Result<Names, Unreadable>>,
    files: BTreeMap<String, Result<Vec<u8>, Unreadable>>,
    variables: BTreeMap<String, Result<Option<String>, Unreadable>>,
    ghost honest: { IsHonest S.gives entries names files variables },
}

impl<S: System> Recorder<S> {
    /// Creates a recorder that has no answers yet, so every machine agrees with it.
    pub fn new(alloc: Global, system: S) -> Recorder<S>
        ensures asks { result.system ≡ system }
        ensures agrees { (machine : Machine) → ⟦<Recorder<S> as Tree>⟧.shows result machine }
    {
        Recorder {
            system,
            entries: BTreeMap::new(alloc),
            names: BTreeMap::new(alloc),
            files: BTreeMap::new(alloc),
            variables: BTreeMap::new(alloc),
        }
    }
}

impl<S: System> Tree for Recorder<S> {
    ghost shows = { λ tree. AgreesWith tree.entries tree.names tree.files tree.variables };

    fn look(&mut self, alloc: Global, path: &str) -> Result<Entry, TreeFault> {
        if let Some(answer) = self.entries.get(path) {
            return copy_entry(alloc, answer);
        }
        let answer = said(self.system.look(alloc, path))?;
        let copy = copy_entry(alloc, &answer);
        keep(alloc, &mut self.entries, path, answer)?;
        copy
    }

    fn names(&mut self, alloc: Global, folder: &str) -> Result<Names, TreeFault> {
        if let Some(answer) = self.names.get(folder) {
            return copy_names(alloc, answer);
        }
        let answer = said(self.system.names(alloc, folder))?;
        let copy = copy_names(alloc, &answer);
        keep(alloc, &mut self.names, folder, answer)?;
        copy
    }

    fn read(&mut self, alloc: Global, file: &str) -> Result<Vec<u8>, TreeFault> {
        if let Some(answer) = self.files.get(file) {
            return copy_bytes(alloc, answer);
        }
        let answer = said(self.system.read(alloc, file))?;
        let copy = copy_bytes(alloc, &answer);
        keep(alloc, &mut self.files, file, answer)?;
        copy
    }

    fn variable(&mut self, alloc: Global, name: &str) -> Result<Option<String>, TreeFault> {
        if let Some(answer) = self.variables.get(name) {
            return copy_value(alloc, answer);
        }
        let answer = said(self.system.variable(alloc, name))?;
        let copy = copy_value(alloc, &answer);
        keep(alloc, &mut self.variables, name, answer)?;
        copy
    }

    ghost some_machine = { λ tree. (
      some_machine (seen_of tree.entries tree.names tree.files tree.variables),
      recorded_agrees tree.entries tree.names tree.files tree.variables,
    ) };
}
