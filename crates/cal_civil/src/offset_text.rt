//! UTC offsets as they are printed.

ghost use Rattle.std.specs.Prelude.{◌≡◌, ◌+◌, ◌≤◌, ◌++◌, length};
ghost use Rattle.cal_bytes.specs.declared.short_text.TheConstants.{SHORT_TEXT_ROOM};
ghost use Rattle.cal_civil.specs.rules.OffsetText.{offset_text, sign_text};

use cal_bytes::{Fill, ShortText, padding, push_all};
use itoa::Buffer;

/// Appends a UTC offset, given in seconds, in the form `+02:00`, or `+00:53:28` if it isn't a whole number of minutes.
/// At most 40 bytes are appended, and the caller guarantees that `text` has room for them.
#[tactic(auto, unfolding(crate::specs::rules::OffsetText::offset_text))]
pub fn push_offset(text: &mut ShortText, offset: i32)
    requires room { length text.old.items + 40 ≤ SHORT_TEXT_ROOM }
    ensures text { text.new.items ≡ text.old.items ++ offset_text offset }
    ensures short { length text.new.items ≤ length text.old.items + 40 }
{
    let ahead = offset.unsigned_abs();
    let (mut hours, mut minutes, mut seconds) = (Buffer::new(), Buffer::new(), Buffer::new());
    let hour = hours.format(ahead / 3_600);
    let minute = minutes.format(ahead / 60 % 60);
    push_all(
        text,
        &[
            sign(offset),
            padding(hour, 2, Fill::Zero),
            hour.as_bytes(),
            b":",
            padding(minute, 2, Fill::Zero),
            minute.as_bytes(),
        ],
    );
    if ahead % 60 != 0 {
        let second = seconds.format(ahead % 60);
        push_all(
            text,
            &[b":", padding(second, 2, Fill::Zero), second.as_bytes()],
        );
    }
}

fn sign<'a>(offset: i32) -> &'a [u8]
    ensures { result.now ≡ sign_text offset }
{
    if offset < 0 { b"-" } else { b"+" }
}
