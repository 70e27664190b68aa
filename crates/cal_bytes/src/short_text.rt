//! Short texts on the stack. A short text is put together from pieces, so that it can be written in one call.

ghost use Rattle.std.specs.Prelude.{◌≡◌, ◌+◌, ◌-◌, ◌≤◌, ◌++◌, length, replicate};
ghost use Rattle.std.specs.List.{flat_map};
ghost use Rattle.cal_bytes.specs.rules.Fill.{byte_of};
ghost use Rattle.cal_bytes.specs.declared.short_text.TheConstants.{SHORT_TEXT_ROOM};

use arrayvec::ArrayVec;

/// The character with which a number is padded on the left.
#[derive(Clone, Copy, PartialEq, Eq, Debug)]
pub enum Fill {
    /// The digit `0`.
    Zero,
    /// A space.
    Blank,
}

/// The maximum length of a short text, in bytes.
pub const SHORT_TEXT_ROOM: usize = 512;

/// A text of at most [`SHORT_TEXT_ROOM`] bytes, on the stack.
pub type ShortText = ArrayVec<u8, 512>;

/// Appends the pieces in order. The caller guarantees that they fit.
pub fn push_all(text: &mut ShortText, pieces: &[&[u8]])
    requires { length text.old.items + length (flat_map (λ piece. piece.now) pieces.now) ≤ SHORT_TEXT_ROOM }
    ensures { text.new.items ≡ text.old.items ++ flat_map (λ piece. piece.now) pieces.now }
{
    for piece in pieces {
        push(text, piece);
    }
}

/// Appends a piece. The caller guarantees that it fits.
pub fn push(text: &mut ShortText, piece: &[u8])
    requires { length text.old.items + length piece.now ≤ SHORT_TEXT_ROOM }
    ensures { text.new.items ≡ text.old.items ++ piece.now }
{
    if text.try_extend_from_slice(piece).is_err() {
        unreachable!()
    }
}

/// Returns the padding that goes in front of `digits` to fill `width`, which is at most 8. The padding is empty if
/// there are at least `width` digits.
#[tactic(auto, using(crate::proofs::ShortText::taken))]
pub fn padding<'a>(digits: &'a str, width: usize, fill: Fill) -> &'a [u8]
    requires { width ≤ 8 }
    ensures text { result.now ≡ replicate (width - length digits.now) (byte_of fill) }
    ensures short { length result.now ≤ width }
{
    let missing = width.saturating_sub(digits.len());
    match fill {
        Fill::Zero => b"00000000".split_at(missing).0,
        Fill::Blank => b"        ".split_at(missing).0,
    }
}
