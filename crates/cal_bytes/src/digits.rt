//! Decimal digits and their value.

ghost use Rattle.std.specs.Prelude.{◌≡◌, IsTrue, min};
ghost use Rattle.std.specs.List.{list_all};
ghost use Rattle.std.specs.Char.{is_ascii_digit};
ghost use Rattle.std.specs.Str.Parse.{digits_value};

/// Returns whether all bytes are ASCII digits. This is `true` for an empty slice.
pub fn are_digits(bytes: &[u8]) -> bool
    ensures { result ≡ list_all is_ascii_digit bytes.now }
{
    bytes.iter().all(|byte| byte.is_ascii_digit())
}

/// Returns the decimal value of `digits`, or `u64::MAX` if the value is larger.
pub fn decimal_value(digits: &[u8]) -> u64
    requires { IsTrue (list_all is_ascii_digit digits.now) }
    ensures { result ≡ min (digits_value 10 digits.now) u64.MAX }
{
    let mut whole = 0_u64;
    for digit in digits {
        whole = whole
            .saturating_mul(10)
            .saturating_add(u64::from(*digit - b'0'));
    }
    whole
}
