//! An in-memory reader and writer for tests. It reads or writes a few bytes at a time and fails on purpose.

ghost use Rattle.std.specs.Prelude.{◌≡◌, ◌+◌, ◌-◌, ◌^◌, ◌<◌, ◌≤◌, min};

use std::io;
use std::io::{ErrorKind, Read, Write};

/// What a [`Faulty`] does once its limit is reached.
#[derive(Clone, Copy, PartialEq, Eq, Debug)]
pub enum Then {
    /// Each read or write fails.
    Error,
    /// Each read or write fails with an error of the kind `Interrupted`.
    Interrupted,
    /// A writer accepts 0 bytes; a reader is at its end.
    Zero,
    /// A reader returns `#` forever; each write fails.
    Endless,
}

/// A std `Write` that appends to a buffer, and a std `Read` that reads from it.
///
/// It reads or writes at most `step` bytes a call and `limit` bytes in all; after that it does what its [`Then`] says.
/// If a reader runs out of bytes before it reaches the limit, it reports the end of its input. If the buffer can't grow
/// because allocation fails, `write` returns an error. A value is meant either for reading or for writing: one count of
/// bytes serves as the position of the reader and as the length of what was written.
#[derive(Debug, Drop)]
pub struct Faulty {
    bytes: Vec<u8>,
    step: usize,
    limit: usize,
    then: Then,
    moved: usize,
    calls: u64,
}

impl Faulty {
    /// Creates a reader of `bytes`, or a writer that appends to them. `step` must be at least 1.
    pub fn new(bytes: Vec<u8>, step: usize, limit: usize, then: Then) -> Faulty
        requires { 0 < step }
        ensures { result ≡ record { bytes = bytes; step = step; limit = limit; «then» = «then»; moved = 0; calls = 0 } }
    {
        Faulty {
            bytes,
            step,
            limit,
            then,
            moved: 0,
            calls: 0,
        }
    }

    /// Returns all bytes: the initial ones and those written since.
    pub fn bytes(&self) -> &[u8]
        ensures { result.now ≡ self.now.bytes.items }
    {
        self.bytes.as_slice()
    }

    /// Returns the number of reads and writes so far, at most `u64::MAX`.
    pub fn calls(&self) -> u64
        ensures { result ≡ self.now.calls }
    {
        self.calls
    }

    fn count_call(&mut self)
        ensures { self.new ≡ record self.old { calls = min (self.old.calls + 1) (2 ^ 64 - 1) } }
    {
        self.calls = self.calls.saturating_add(1);
    }

    /// Returns how many of `wanted` bytes this call may read or write. This is 0 once the limit is reached.
    fn allowed(&self, wanted: usize) -> usize
        ensures wanted { result ≤ wanted }
        ensures within { result ≤ self.now.limit - self.now.moved }
    {
        wanted
            .min(self.step)
            .min(self.limit.saturating_sub(self.moved))
    }
}

impl Write for Faulty {
    fn write(&mut self, buf: &[u8]) -> io::Result<usize> {
        self.count_call();
        let count = self.allowed(buf.len());
        if self.moved >= self.limit {
            return match self.then {
                Then::Zero => Ok(0),
                Then::Interrupted => Err(ErrorKind::Interrupted.into()),
                Then::Error | Then::Endless => Err(ErrorKind::Other.into()),
            };
        }
        self.bytes.extend_from_slice(&buf[..count])?;
        self.moved += count;
        Ok(count)
    }

    fn flush(&mut self) -> io::Result<()> {
        Ok(())
    }
}

impl Read for Faulty {
    fn read(&mut self, buf: &mut [u8]) -> io::Result<usize> {
        self.count_call();
        if self.moved >= self.limit {
            return match self.then {
                Then::Zero => Ok(0),
                Then::Interrupted => Err(ErrorKind::Interrupted.into()),
                Then::Error => Err(ErrorKind::Other.into()),
                Then::Endless => {
                    let count = buf.len().min(self.step);
                    buf[..count].fill(b'#');
                    Ok(count)
                }
            };
        }
        let rest = &self.bytes[self.moved.min(self.bytes.len())..];
        let count = self.allowed(buf.len().min(rest.len()));
        buf[..count].copy_from_slice(&rest[..count]);
        self.moved += count;
        Ok(count)
    }
}
