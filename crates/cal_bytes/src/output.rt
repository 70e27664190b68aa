//! The trait [`Output`] of a [`Sink`] that can be flushed, and its implementation for a [`Port`] over a std
//! `BufWriter`.

ghost use Rattle.cal_bytes.specs.rules.Output.{Flushes};
ghost use Rattle.std.specs.Io.Buffered.{writer_inner};
ghost use Rattle.std.specs.Prelude.{◌≡◌, ℕ, List, Option, None, not, true};

use crate::Port;
use crate::bytes::Sink;
use std::io::{BufWriter, Write};

/// A [`Sink`] that may keep bytes in a buffer until it is flushed.
///
/// A contract can see the bytes that have left the buffer, if the type keeps track of them.
pub trait Output: Sink {
    /// The bytes that have left the buffer, or `None` if the type doesn't keep track of them.
    ghost reached: { Self → Option (List ℕ) } = { λ _. None };

    /// Writes out the buffer, and returns `true` if no call has failed, including this one. In that case, all bytes
    /// written so far have left the buffer; otherwise, a prefix of these bytes has left it.
    fn flush(&mut self) -> bool
        ensures answer { result ≡ not (Self.is_failed self.new) }
        ensures failed { Self.is_failed self.old ≡ true → Self.is_failed self.new ≡ true }
        ensures bytes { Flushes (Self.written self.old) (reached self.new) result };
}

impl<W: Write + Drop> Output for Port<BufWriter<W>> {
    ghost reached = { λ port. W.contents (writer_inner port.inner) };

    fn flush(&mut self) -> bool {
        let Ok(()) = self.inner.flush() else {
            self.has_failed = true;
            return false;
        };
        !self.has_failed
    }
}
