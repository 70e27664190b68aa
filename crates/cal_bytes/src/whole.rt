//! Reading a source to its end.

ghost use Rattle.std.specs.Prelude.{◌≡◌, false, MatchResult};
ghost use Rattle.cal_bytes.specs.rules.Whole.{is_read_failed, GivesAll, IsWholeFault};

use crate::bytes::Source;
use std::alloc::Global;

/// Why reading a source to its end failed.
#[derive(Clone, Copy, PartialEq, Eq, Debug)]
pub enum WholeFault {
    /// A call of [`Source::fetch`] failed.
    ReadFailed = 1,
    /// The source has more bytes than the limit.
    TooLarge = 2,
    /// Allocation failed. The bytes that were read until then are lost.
    NoMemory = 3,
}

/// The number of bytes that each read asks for.
const CHUNK: usize = 4_096;

/// Reads a source, which may have at most `limit` bytes, to its end and returns its bytes.
///
/// The errors are:
///
/// - [`WholeFault::ReadFailed`] if and only if a call of [`Source::fetch`] fails; no further call is made.
/// - [`WholeFault::TooLarge`] if the source has more than `limit` bytes. Nothing more is read then, so an endless
///   source gives this error, too.
/// - [`WholeFault::NoMemory`] if allocation fails.
///
/// The function makes at most `limit` + 1 calls of `fetch`, since each but the last returns at least one byte.
pub fn read_whole<R: Source>(
    alloc: Global,
    from: &mut R,
    limit: usize,
) -> Result<Vec<u8>, WholeFault>
    requires { R.is_failed from.old ≡ false }
    ensures failed { R.is_failed from.new ≡ is_read_failed result }
    ensures bytes { MatchResult result
        (λ bytes. GivesAll (R.remaining from.old) (R.remaining from.new) limit bytes.items)
        (IsWholeFault (R.remaining from.old) (R.remaining from.new) limit) }
    ensures sure { R.may_fail from.old ≡ false → R.is_failed from.new ≡ false }
{
    let mut bytes = Vec::new(alloc);
    let mut chunk = [0; CHUNK];
    while let Some(count) = from.fetch(&mut chunk) {
        if count == 0 {
            return Ok(bytes);
        }
        if count > limit - bytes.len() {
            return Err(WholeFault::TooLarge);
        }
        if bytes.extend_from_slice(&chunk[..count]).is_err() {
            return Err(WholeFault::NoMemory);
        }
    }
    Err(WholeFault::ReadFailed)
}
