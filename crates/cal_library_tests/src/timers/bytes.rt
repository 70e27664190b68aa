//! Timer files that are not valid UTF-8. The error has the number of the line that contains the first invalid byte.

use super::fault_of;
use cal_read::TimerFault;
use std::test::Fail;

/// Files that are not valid UTF-8, each with the number of the line that contains the first invalid byte.
static WRONG_BYTES: [(&[u8], u32); 13] = [
    // A file of one byte.
    (b"\xFF", 1),
    (b"\n\xFF", 2),
    // An invalid byte after an invalid expression: only the byte is reported.
    (b"[Timer]\nOnCalendar=x!\n\n\xFF\n\xFF", 4),
    // An invalid byte after a valid expression.
    (b"[Timer]\nOnCalendar=daily\nx=\xFF\n", 3),
    // A two-byte character that breaks off before a line feed.
    (b"\n\xC3\n", 2),
    // A three-byte character that breaks off before a line feed.
    (b"\n\xE2\x82\n", 2),
    // A character that breaks off at the end of the file.
    (b"\xEF\xBB\xBF\n\xF0\x9F\x98", 2),
    // A surrogate.
    (b"\n\xED\xA0\x80", 2),
    // In the next two rows: characters of two and three bytes, each with the first byte of another character in place
    // of its last byte.
    (b"\n\xC3\xC3", 2),
    (b"\n\xE2\x82\xC3", 2),
    // An overlong encoding of a line feed.
    (b"\n\xC0\x8A", 2),
    // A byte order mark that is cut short.
    (b"\xEF\xBB", 1),
    // An invalid byte in another section, after continued lines.
    (b"[Unit]\\\n\\\n\xFF", 3),
];

#[test]
fn lines_of_wrong_bytes(rt: HostRuntime) -> Result<(), Fail> {
    for (file, line) in &WRONG_BYTES {
        if fault_of(rt.alloc(), file) != Some(TimerFault::NotUtf8(*line)) {
            return Err((*file).into());
        }
    }
    Ok(())
}
