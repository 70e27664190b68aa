//! Removing a sign, or the word `left` or `ago`, from the text of a timestamp.

ghost use Rattle.std.specs.Prelude.{◌≡◌, ◌<◌, drop, length, slice_index};
ghost use Rattle.std.specs.Option.{option_copied};
ghost use Rattle.cal_stamp.specs.computed.StampForm.{before_word};

use cal_bytes::last_word;

/// Returns `text` without its first character, which must be ASCII.
pub(crate) fn text_after_first(text: &str) -> &str
    requires some { 0 < length text.now }
    requires ascii { slice_index text.now 0 < 128 }
    ensures { result.now ≡ drop 1 text.now }
{
    &text[1..]
}

/// Returns the part of `text` before the last blank, if the part after this blank is `word`. Returns `None` otherwise.
pub(crate) fn before_word<'a>(word: &str, text: &'a str) -> Option<&'a str>
    ensures { option_copied result ≡ before_word word.now text.now }
{
    let (before, last) = last_word(text)?;
    if last == word { Some(before) } else { None }
}
