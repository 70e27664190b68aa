//! The real files and the real clock, reached through the runtime of the program. Nothing is proved about what they
//! hold.

ghost use Rattle.std.specs.Option.{option_map_or};
ghost use Rattle.std.specs.Prelude.{true};

use crate::inputs::{Inputs, OpenFault};
use cal_bytes::{Port, Source};
use std::fs;
use std::io::ErrorKind;
use std::rt::Files;
use std::time::{Clock, SystemTime, UNIX_EPOCH};

/// The clock of the system that the program runs on, and its files, one after another.
#[derive(Drop)]
pub struct HostInputs<'a, R: Files> {
    /// The runtime, through which everything is read.
    rt: &'a R,
    /// The file that was opened last. `None` if no file is open.
    file: Option<Port<R::File>>,
}

impl<'a, R: Files> HostInputs<'a, R> {
    /// Returns the inputs that this runtime reaches. No file is open.
    pub fn new(rt: &'a R) -> HostInputs<'a, R> {
        HostInputs { rt, file: None }
    }
}

impl<'a, R: Files> Source for HostInputs<'a, R> {
    ghost is_failed = { λ inputs. option_map_or (λ port. port.has_failed) inputs.file true };

    fn fetch(&mut self, into: &mut [u8]) -> Option<usize> {
        match &mut self.file {
            Some(port) => port.fetch(into),
            None => None,
        }
    }
}

impl<'a, R: Files + Clock> Inputs for HostInputs<'a, R> {
    fn open(&mut self, path: &str) -> Result<(), OpenFault> {
        self.file = None;
        match fs::open(self.rt, path) {
            Ok(file) => {
                self.file = Some(Port::new(file));
                Ok(())
            }
            Err(error) if error.kind() == ErrorKind::OutOfMemory => Err(OpenFault::NoMemory),
            Err(_) => Err(OpenFault::Unopened),
        }
    }

    fn clock(&self) -> Option<i64> {
        let now = SystemTime::now(self.rt).ok()?;
        let since = now.duration_since(UNIX_EPOCH).ok()?;
        i64::try_from(since.as_secs()).ok()
    }
}
