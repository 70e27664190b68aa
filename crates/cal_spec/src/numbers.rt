//! Splitting the text of a part into symbols (numbers, `..`, `/` and others), and the value of a number.

ghost use Rattle.std.specs.Prelude.{◌≡◌, ◌≤◌, ◌∷◌, [], IsTrue, MatchOption, min, length};
ghost use Rattle.std.specs.List.{list_all, prefix_len};
ghost use Rattle.std.specs.Char.{is_ascii_digit};
ghost use Rattle.std.specs.Str.Parse.{digits_value};
ghost use Rattle.cal_spec.specs.computed.Parts.{symbols};
ghost use Rattle.cal_spec.specs.computed.Views.{symbol_of};

use cal_bytes::decimal_value;

/// A symbol in the text of a part.
#[derive(Clone, Copy)]
pub(crate) enum Symbol<'a> {
    /// A maximal run of digits.
    Digits(&'a [u8]),
    /// Two dots, `..`.
    Dots,
    Slash,
    /// A single dot.
    Point,
    /// Any other byte.
    Other(u8),
}

/// Returns the first symbol of `text` and the text after it, or `None` if `text` is empty.
pub(crate) fn first_symbol(text: &[u8]) -> Option<(Symbol<'_>, &[u8])>
    ensures { MatchOption result (text.now ≡ [])
        (λ found. symbols text.now ≡ symbol_of found.0 ∷ symbols found.1.now) }
{
    match text {
        [] => None,
        [b'.', b'.', after @ ..] => Some((Symbol::Dots, after)),
        [b'.', after @ ..] => Some((Symbol::Point, after)),
        [b'/', after @ ..] => Some((Symbol::Slash, after)),
        [b'0'..=b'9', ..] => {
            let (digits, after) = text.split_at(digits_len(text));
            Some((Symbol::Digits(digits), after))
        }
        [other, after @ ..] => Some((Symbol::Other(*other), after)),
    }
}

fn digits_len(text: &[u8]) -> usize
    ensures value { result ≡ prefix_len is_ascii_digit text.now }
    ensures within { result ≤ length text.now }
{
    text.iter().take_while(|byte| byte.is_ascii_digit()).count()
}

/// Returns the decimal value of `digits`, or `u16::MAX` if the value is larger.
pub(crate) fn value_of(digits: &[u8]) -> u16
    requires { IsTrue (list_all is_ascii_digit digits.now) }
    ensures { result ≡ min (digits_value 10 digits.now) u16.MAX }
{
    decimal_value(digits).min(u64::from(u16::MAX)) as u16
}
