//! Filling in the specifiers in the values of a timer's files (systemd.unit(5), Specifiers).

ghost use Rattle.std.specs.Prelude.{◌≡◌, ◌<◌, ◌∷◌, [], IfOk, IsTrue, MatchOption, OnOk, length};
ghost use Rattle.std.specs.Char.{digit_value};
ghost use Rattle.std.specs.List.{after_last, list_any};
ghost use Rattle.cal_unit_index.specs.rules.UnitName.{is_template, without_suffix};
ghost use Rattle.cal_load.specs.rules.Specifiers.{after_backslash, checked, ends_specifier, filled_of, filling_of, hex_value, instance_in, is_dash, is_escape, is_hex, is_of_instance, is_of_system, is_strange_part, is_unclear, is_unknown_in_unit, joined, known_in, last_component_in, parts_of, prefix_in, shown_draft, shown_filled, slash_for_dash, slashed, specified, unescaped, unit_filled_of};
ghost use Rattle.cal_load.specs.rules.Specifiers.Filling.{Text, Unclear, Invalid};

use cal_spec::first_piece;
use cal_unit_index::{UnitKind, stem_base, unit_kind_of, without_suffix};
use std::alloc::{AllocError, Global};

/// A value with its specifiers filled in.
#[derive(Drop)]
pub(crate) enum Filled {
    /// The text that the value stands for.
    Text(String),
    /// The value depends on more than the timer's name, such as the machine's host name.
    Unclear,
    /// systemd ignores the assignment: the value has a specifier that doesn't exist or can't be unescaped, or the text
    /// that it stands for isn't UTF-8.
    Invalid,
}

/// A part of a value.
#[derive(Clone, Copy)]
enum Part {
    /// A byte that stands for itself.
    Byte(u8),
    /// A specifier: a `%` and this letter, digit or `%`.
    Specifier(u8),
}

/// Whether the bytes of a [`Draft`] are what the parts of the value so far stand for.
#[derive(Clone, Copy)]
enum State {
    /// The bytes are this text.
    Text,
    /// One of the parts depends on more than the timer's name, so the bytes mean nothing.
    Unclear,
    /// One of the parts is invalid, so the bytes mean nothing.
    Invalid,
}

/// The text that the first parts of a value stand for, as far as it is known.
#[derive(Drop)]
struct Draft {
    bytes: Vec<u8>,
    state: State,
}

/// Fills in the specifiers in a value from the files of a timer. `name` is the timer's full name, such as
/// `backup@home.timer`. If a specifier depends on anything but this name, the result is [`Filled::Unclear`], unless the
/// value is invalid anyway.
pub(crate) fn fill(alloc: Global, name: &str, value: &str) -> Result<Filled, AllocError>
    ensures { IfOk result (λ filled. shown_filled filled ≡ filled_of name.now value.now) }
{
    let mut draft = Draft::new(alloc);
    let mut rest = value.as_bytes();
    while let Some((part, after)) = first_part(rest) {
        draft.push_part(name, part)?;
        rest = after;
    }
    Ok(draft.finish())
}

/// Fills in the specifiers in a value of `Unit=`. A specifier that systemd 252 doesn't know in `Unit=` is invalid, even
/// if systemd knows it elsewhere.
pub(crate) fn fill_unit(alloc: Global, name: &str, value: &str) -> Result<Filled, AllocError>
    ensures { IfOk result (λ filled. shown_filled filled ≡ unit_filled_of name.now value.now) }
{
    if has_strange_part(value) {
        return Ok(Filled::Invalid);
    }
    fill(alloc, name, value)
}

/// Returns whether a value has a specifier that systemd doesn't know in `Unit=`.
fn has_strange_part(value: &str) -> bool
    ensures { result ≡ list_any is_strange_part (parts_of value.now) }
{
    let mut rest = value.as_bytes();
    while let Some((part, after)) = first_part(rest) {
        if is_strange_part(part) {
            return true;
        }
        rest = after;
    }
    false
}

fn is_strange_part(part: Part) -> bool
    ensures { result ≡ is_strange_part part }
{
    match part {
        Part::Byte(_) => false,
        Part::Specifier(letter) => is_unknown_in_unit(letter),
    }
}

fn is_unknown_in_unit(letter: u8) -> bool
    ensures { result ≡ is_unknown_in_unit letter }
{
    b"cCdEfhIJLPrRsStTVyY".contains(&letter)
}

/// Returns the first part of a value and the bytes after it, or `None` if the value is empty.
fn first_part(value: &[u8]) -> Option<(Part, &[u8])>
    ensures { MatchOption result (parts_of value.now ≡ []) (λ found.
        (parts_of value.now ≡ found.0 ∷ parts_of found.1.now) × (length found.1.now < length value.now)) }
{
    match value {
        [b'%', letter, after @ ..] if ends_specifier(*letter) => {
            Some((Part::Specifier(*letter), after))
        }
        [byte, after @ ..] => Some((Part::Byte(*byte), after)),
        [] => None,
    }
}

/// Returns whether a `%` and this byte form a specifier.
fn ends_specifier(byte: u8) -> bool
    ensures { result ≡ ends_specifier byte }
{
    byte.is_ascii_alphanumeric() || byte == b'%'
}

impl Draft {
    fn new(alloc: Global) -> Draft
        ensures { shown_draft result ≡ Text [] }
    {
        Draft {
            bytes: Vec::new(alloc),
            state: State::Text,
        }
    }

    /// Appends what a part of a value stands for in the files of the timer `name`.
    fn push_part(&mut self, name: &str, part: Part) -> Result<(), AllocError>
        ensures { OnOk result (shown_draft self.new ≡ joined (shown_draft self.old) (filling_of name.now part)) }
    {
        match part {
            Part::Byte(byte) => self.push(&[byte]),
            Part::Specifier(letter) => self.push_specifier(name, letter),
        }
    }

    /// Appends what the specifier with this letter stands for in the files of the timer `name`.
    fn push_specifier(&mut self, name: &str, letter: u8) -> Result<(), AllocError>
        ensures { OnOk result (shown_draft self.new ≡ joined (shown_draft self.old) (specified name.now letter)) }
    {
        if is_unclear(name, letter) {
            self.push_unclear();
            return Ok(());
        }
        self.push_known(name, letter)
    }

    /// Appends what the specifier with this letter stands for: `%`, the timer's name, or a part of the name. Any other
    /// specifier is taken as invalid.
    fn push_known(&mut self, name: &str, letter: u8) -> Result<(), AllocError>
        ensures { OnOk result (shown_draft self.new ≡ joined (shown_draft self.old) (known_in name.now letter)) }
    {
        match letter {
            b'n' => self.push(name.as_bytes()),
            b'N' => self.push(without_suffix(name).as_bytes()),
            b'p' => self.push(prefix_in(name).as_bytes()),
            b'P' => self.push_unescaped(prefix_in(name).as_bytes()),
            b'i' => self.push(instance_in(name).as_bytes()),
            b'I' => self.push_unescaped(instance_in(name).as_bytes()),
            b'j' => self.push(last_component_in(name)),
            b'J' => self.push_unescaped(last_component_in(name)),
            b'%' => self.push(b"%"),
            _ => {
                self.push_invalid();
                Ok(())
            }
        }
    }

    /// Appends what an escaped text stands for (systemd.unit(5), String Escaping for Inclusion in Unit Names).
    #[tactic(auto, unfolding(crate::specs::rules::Specifiers::unescaped))]
    fn push_unescaped(&mut self, text: &[u8]) -> Result<(), AllocError>
        ensures { OnOk result (shown_draft self.new ≡ joined (shown_draft self.old) (unescaped text.now)) }
    {
        let (first, mut rest) = first_piece(text, b'\\');
        self.push_slashed(first)?;
        while let Some(texts) = rest {
            let (piece, after) = first_piece(texts, b'\\');
            self.push_escape(piece)?;
            rest = after;
        }
        Ok(())
    }

    /// Appends what a backslash and the text between it and the next backslash stand for.
    fn push_escape(&mut self, piece: &[u8]) -> Result<(), AllocError>
        ensures { OnOk result (shown_draft self.new ≡ joined (shown_draft self.old) (after_backslash piece.now)) }
    {
        match piece {
            [x, high, low, text @ ..] if is_escape(*x, *high, *low) => {
                self.push(&[hex_value(*high, *low)])?;
                self.push_slashed(text)
            }
            _ => {
                self.push_invalid();
                Ok(())
            }
        }
    }

    /// Appends a text with a slash for each dash.
    fn push_slashed(&mut self, text: &[u8]) -> Result<(), AllocError>
        ensures { OnOk result (shown_draft self.new ≡ joined (shown_draft self.old) (Text (slashed text.now))) }
    {
        for byte in text {
            self.push(&[slash_for_dash(*byte)])?;
        }
        Ok(())
    }

    fn push(&mut self, bytes: &[u8]) -> Result<(), AllocError>
        ensures { OnOk result (shown_draft self.new ≡ joined (shown_draft self.old) (Text bytes.now)) }
    {
        self.bytes.extend_from_slice(bytes)?;
        Ok(())
    }

    fn push_unclear(&mut self)
        ensures { shown_draft self.new ≡ joined (shown_draft self.old) Unclear }
    {
        match self.state {
            State::Text => self.state = State::Unclear,
            State::Unclear => {}
            State::Invalid => {}
        }
    }

    fn push_invalid(&mut self)
        ensures { shown_draft self.new ≡ joined (shown_draft self.old) Invalid }
    {
        self.state = State::Invalid;
    }

    fn finish(self) -> Filled
        ensures { shown_filled result ≡ checked (shown_draft self) }
    {
        match self.state {
            State::Text => text_of(self.bytes),
            State::Unclear => Filled::Unclear,
            State::Invalid => Filled::Invalid,
        }
    }
}

/// Returns the text with these bytes, or [`Filled::Invalid`] if they aren't UTF-8.
fn text_of(bytes: Vec<u8>) -> Filled
    ensures { shown_filled result ≡ checked (Text bytes.items) }
{
    match String::from_utf8(bytes) {
        Ok(text) => Filled::Text(text),
        Err(_) => Filled::Invalid,
    }
}

/// Returns whether the specifier with this letter depends on more than the timer's name.
fn is_unclear(name: &str, letter: u8) -> bool
    ensures { result ≡ is_unclear name.now letter }
{
    is_of_system(letter) || (is_template(name) && is_of_instance(letter))
}

/// Returns whether the specifier with this letter depends on the running system, on the user, or on where the timer's
/// files are.
#[tactic(auto, unfolding(crate::specs::rules::Specifiers::is_of_system))]
fn is_of_system(letter: u8) -> bool
    ensures { result ≡ is_of_system letter }
{
    b"aAbBcCdEfgGhHlLmMoqrRsStTuUvVwWyY".contains(&letter)
}

/// Returns whether the specifier with this letter depends on the instance, and not only on the prefix of the name.
#[tactic(auto, unfolding(crate::specs::rules::Specifiers::is_of_instance))]
fn is_of_instance(letter: u8) -> bool
    ensures { result ≡ is_of_instance letter }
{
    b"iInN".contains(&letter)
}

fn is_template(name: &str) -> bool
    ensures { result ≡ is_template (without_suffix name.now) }
{
    matches!(unit_kind_of(without_suffix(name)), UnitKind::Template)
}

/// Returns the prefix of a name: the part before its first `@`, or, if it has no `@`, the name without its suffix.
pub(crate) fn prefix_in(name: &str) -> &str
    ensures { result.now ≡ prefix_in name.now }
{
    stem_base(without_suffix(name))
}

/// Returns the part of a name between its first `@` and its suffix, or an empty text if the name has no `@`.
#[tactic(auto, unfolding(cal_unit_index::specs::rules::UnitName::instance_of))]
pub(crate) fn instance_in(name: &str) -> &str
    ensures { result.now ≡ instance_in name.now }
{
    match without_suffix(name).split_once('@') {
        Some((_, instance)) => instance,
        None => "",
    }
}

/// Returns the part of a name's prefix after the last dash, or all of the prefix if it has no dash.
fn last_component_in(name: &str) -> &[u8]
    ensures { result.now ≡ last_component_in name.now }
{
    after_last_dash(prefix_in(name).as_bytes())
}

fn after_last_dash(text: &[u8]) -> &[u8]
    ensures { result.now ≡ after_last is_dash text.now }
{
    let mut start = text.len();
    while start > 0 && text[start - 1] != b'-' {
        start -= 1;
    }
    &text[start..]
}

fn slash_for_dash(byte: u8) -> u8
    ensures { result ≡ slash_for_dash byte }
{
    if byte == b'-' { b'/' } else { byte }
}

/// Returns whether a backslash and these bytes form a valid escape: an `x` and two hexadecimal digits that aren't both
/// 0.
fn is_escape(x: u8, high: u8, low: u8) -> bool
    ensures { result ≡ is_escape x high low }
{
    x == b'x' && is_hex(high) && is_hex(low) && hex_value(high, low) > 0
}

fn is_hex(byte: u8) -> bool
    ensures { result ≡ is_hex byte }
{
    digit_value(byte) < 16
}

/// Returns the value of two hexadecimal digits.
fn hex_value(high: u8, low: u8) -> u8
    requires high { IsTrue (is_hex high) }
    requires low { IsTrue (is_hex low) }
    ensures { result ≡ hex_value high low }
{
    digit_value(high) * 16 + digit_value(low)
}

/// Returns the value of a digit in any base up to 36, in which the letters are the digits from 10 on. Returns 36 for
/// any other byte.
fn digit_value(byte: u8) -> u8
    ensures { result ≡ digit_value byte }
{
    match byte {
        b'0'..=b'9' => byte - b'0',
        b'A'..=b'Z' => byte - b'A' + 10,
        b'a'..=b'z' => byte - b'a' + 10,
        _ => 36,
    }
}
