//! Writing whole texts to a [`Sink`].

ghost use Rattle.cal_bytes.specs.rules.Puts.{Puts};
ghost use Rattle.std.specs.List.{flat_map};
ghost use Rattle.std.specs.Prelude.{◌≡◌, false};

use crate::bytes::Sink;

/// Why a text was not written completely.
#[derive(Clone, Copy, PartialEq, Eq, Debug)]
pub enum WriteFault {
    /// The sink failed. Until then it had accepted a prefix of the text, possibly an empty one.
    Failed = 1,
}

/// Writes all of `piece`, in as many calls of [`Sink::offer`] as it takes.
///
/// Fails with [`WriteFault::Failed`] if and only if a call of `offer` fails; then only a prefix of `piece` was written.
pub fn put_all<W: Sink>(out: &mut W, piece: &[u8]) -> Result<(), WriteFault>
    requires { W.is_failed out.old ≡ false }
    ensures { Puts W.Sink out.old out.new result piece.now }
{
    let mut rest = piece;
    while !rest.is_empty() {
        match out.offer(rest) {
            Some(count) => rest = rest.split_at(count).1,
            None => return Err(WriteFault::Failed),
        }
    }
    Ok(())
}

/// Writes the pieces in order. Fails with [`WriteFault::Failed`] if and only if a call of [`Sink::offer`] fails; then
/// only a prefix of the joined pieces was written.
pub fn put_pieces<W: Sink>(out: &mut W, pieces: &[&[u8]]) -> Result<(), WriteFault>
    requires { W.is_failed out.old ≡ false }
    ensures { Puts W.Sink out.old out.new result (flat_map (λ piece. piece.now) pieces.now) }
{
    for piece in pieces {
        put_all(out, piece)?;
    }
    Ok(())
}
