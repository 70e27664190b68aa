//! The traits [`Sink`] and [`Source`], through which this project writes and reads bytes.

ghost use Rattle.cal_bytes.specs.rules.Writes.{Offered, Fetched};
ghost use Rattle.std.specs.Prelude.{◌≡◌, ℕ, List, Option, None, Bool, true, false, is_none};

/// A destination for bytes.
///
/// A contract can see the bytes written so far, if the type keeps track of them, and whether a call has failed.
pub trait Sink {
    /// The bytes written so far, or `None` if the type doesn't keep track of them.
    ghost written: { Self → Option (List ℕ) } = { λ _. None };

    /// Whether a call has failed.
    ghost is_failed: { Self → Bool };

    /// Writes a prefix of `piece` and returns the length of this prefix, which is at least 1 unless `piece` is empty.
    /// Returns `None` if the call fails; then it has written nothing.
    fn offer(&mut self, piece: &[u8]) -> Option<usize>
        requires { is_failed self.old ≡ false }
        ensures failed { is_failed self.new ≡ is_none result }
        ensures bytes { Offered (written self.old) (written self.new) piece.now result };
}

/// A source of bytes.
///
/// A contract can see whether a call has failed and whether one can fail at all. If the type keeps track of the bytes
/// still to come, the contract can see them, too.
pub trait Source {
    /// The bytes still to come, or `None` if the type doesn't keep track of them.
    ghost remaining: { Self → Option (List ℕ) } = { λ _. None };

    /// Whether a call has failed.
    ghost is_failed: { Self → Bool };

    /// Whether a call can fail.
    ghost may_fail: { Self → Bool } = { λ _. true };

    /// Reads the next bytes into the start of `into` and returns their number, which is 0 only at the end of the source
    /// or if `into` is empty. Returns `None` if the call fails; then it has read nothing.
    fn fetch(&mut self, into: &mut [u8]) -> Option<usize>
        requires { is_failed self.old ≡ false }
        ensures failed { is_failed self.new ≡ is_none result }
        ensures bytes { Fetched (remaining self.old) (remaining self.new) into.new result }
        ensures sure { may_fail self.old ≡ false → is_none result ≡ false }
        ensures stays { may_fail self.new ≡ may_fail self.old };
}
