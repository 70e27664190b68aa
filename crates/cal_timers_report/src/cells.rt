//! Parts of lines: text without control characters, and text that is padded or cut to a width.

ghost use Rattle.std.specs.Prelude.{◌≡◌, ◌++◌, OnOk, length, min, replicate, string_bytes, take, true};
ghost use Rattle.std.specs.Char.{encode_utf8, is_control};
ghost use Rattle.std.specs.List.{flat_map};
ghost use Rattle.std.specs.Str.{chars};
ghost use Rattle.cal_timers_report.specs.rules.Columns.{blanks, cut, padded};
ghost use Rattle.cal_timers_report.specs.rules.PrintableText.{char_width, code_text, printable_text, shown_width};

use std::alloc::AllocError;

/// The width of the column of labels, including the blanks before and after a label.
pub(crate) const LABEL_WIDTH: usize = 13;

/// Appends a text, with each control character replaced by `\x` and its code in two hexadecimal digits.
pub fn push_printable(out: &mut String, text: &str) -> Result<(), AllocError>
    ensures { OnOk result (string_bytes out.new ≡ string_bytes out.old ++ printable_text text.now) }
{
    for sign in text.chars() {
        if sign.is_control() {
            push_code(out, sign)?;
        } else {
            out.push(sign)?;
        }
    }
    Ok(())
}

/// Appends a control character as `\x` and the two hexadecimal digits of its code, as in `\x1b`.
pub fn push_code(out: &mut String, sign: char) -> Result<(), AllocError>
    requires { is_control sign ≡ true }
    ensures { OnOk result (string_bytes out.new ≡ string_bytes out.old ++ code_text sign) }
{
    let code = u32::from(sign);
    write!(out, "\\x{code:02x}")
}

/// Returns the number of characters that [`push_printable`] appends for this text, or `usize::MAX` if there are more.
#[tactic(auto, unfolding(crate::specs::rules::PrintableText::shown_width))]
pub fn shown_width(text: &str) -> usize
    ensures { result ≡ min (shown_width text.now) usize.MAX }
{
    let mut width: usize = 0;
    for sign in text.chars() {
        width = width.saturating_add(char_width(sign));
    }
    width
}

/// Returns the number of characters that [`push_printable`] appends for this character.
fn char_width(sign: char) -> usize
    ensures { result ≡ char_width sign }
{
    if sign.is_control() { 4 } else { 1 }
}

/// Returns the number of characters in a text.
pub(crate) fn width_of(text: &str) -> usize
    ensures { result ≡ length (chars text.now) }
{
    text.chars().count()
}

/// Appends a text, followed by as many blanks as are needed for `width` characters in all.
pub(crate) fn push_padded(out: &mut String, text: &str, width: usize) -> Result<(), AllocError>
    ensures { OnOk result (string_bytes out.new ≡ string_bytes out.old ++ padded width text.now) }
{
    out.push_str(text)?;
    push_blanks(out, width.saturating_sub(width_of(text)))
}

pub fn push_blanks(out: &mut String, count: usize) -> Result<(), AllocError>
    ensures { OnOk result (string_bytes out.new ≡ string_bytes out.old ++ blanks count) }
{
    for _ in 0..count {
        out.push(' ')?;
    }
    Ok(())
}

/// Appends a character `count` times.
pub fn push_times(out: &mut String, sign: char, count: usize) -> Result<(), AllocError>
    ensures { OnOk result (string_bytes out.new ≡ string_bytes out.old ++ flat_map encode_utf8 (replicate count sign)) }
{
    for _ in 0..count {
        out.push(sign)?;
    }
    Ok(())
}

/// Appends a text if it has at most `width` characters. Otherwise appends its first `width - 1` characters and `…`, or
/// only `…` if `width` is 0.
pub(crate) fn push_cut(out: &mut String, text: &str, width: usize) -> Result<(), AllocError>
    ensures { OnOk result (string_bytes out.new ≡ string_bytes out.old ++ cut width text.now) }
{
    if width_of(text) <= width {
        return out.push_str(text);
    }
    push_first(out, text, width.saturating_sub(1))?;
    out.push('…')
}

/// Appends the first `count` characters of a text, or the whole text if it has fewer.
fn push_first(out: &mut String, text: &str, count: usize) -> Result<(), AllocError>
    ensures { OnOk result (string_bytes out.new ≡ string_bytes out.old ++ flat_map encode_utf8 (take count (chars text.now))) }
{
    for sign in text.chars().take(count) {
        out.push(sign)?;
    }
    Ok(())
}
