//! A std reader or writer as a [`Source`] or [`Sink`].

ghost use Rattle.std.specs.Prelude.{◌≡◌, true, false, None};

use crate::bytes::{Sink, Source};
use std::io::{Read, Write};

/// A [`Sink`] over any std `Write`, or a [`Source`] over any std `Read`, that remembers whether a call has failed.
///
/// Each call of [`Sink::offer`] makes one `write`, and each call of [`Source::fetch`] makes one `read`. Every error
/// counts as a failure, even `Interrupted`, and so does a `write` that accepts 0 bytes of a piece that isn't empty. If
/// the inner reader or writer cannot allocate, the call fails, too.
#[derive(Debug, Drop)]
pub struct Port<T> {
    pub(crate) inner: T,
    pub(crate) has_failed: bool,
}

impl<T> Port<T> {
    /// Creates a port over `inner`, with no failed call so far.
    pub fn new(inner: T) -> Port<T>
        ensures { result ≡ record { inner = inner; has_failed = false } }
    {
        Port {
            inner,
            has_failed: false,
        }
    }

    /// Returns whether a call of [`Sink::offer`], [`Source::fetch`] or [`crate::Output::flush`] has failed.
    pub fn failed(&self) -> bool
        ensures { result ≡ self.now.has_failed }
    {
        self.has_failed
    }

    /// Returns the inner reader or writer. If it has a buffer, the buffer isn't flushed.
    pub fn into_inner(self) -> T
        ensures { result ≡ self.inner }
    {
        let Port {
            inner,
            has_failed: _,
        } = self;
        inner
    }
}

impl<T> Port<T> {
    /// Records that a call has failed. Always returns `None`, so that the failed call can return this result.
    fn fail(&mut self) -> Option<usize>
        ensures answer { result ≡ None }
        ensures mark { self.new ≡ record self.old { has_failed = true } }
    {
        self.has_failed = true;
        None
    }
}

impl<T: Write> Sink for Port<T> {
    ghost written = { λ port. T.contents port.inner };

    ghost is_failed = { λ port. port.has_failed };

    fn offer(&mut self, piece: &[u8]) -> Option<usize> {
        match self.inner.write(piece) {
            Ok(count) if count > 0 || piece.is_empty() => Some(count),
            _ => self.fail(),
        }
    }
}

impl<T: Read> Source for Port<T> {
    ghost remaining = { λ port. T.remaining port.inner };

    ghost is_failed = { λ port. port.has_failed };

    fn fetch(&mut self, into: &mut [u8]) -> Option<usize> {
        match self.inner.read(into) {
            Ok(count) => Some(count),
            Err(_) => self.fail(),
        }
    }
}
