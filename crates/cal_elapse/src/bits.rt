//! Sets of numbers below 64, stored as the bits of a word.

ghost use Rattle.std.specs.Prelude.{◌≡◌, ◌≢◌, ◌+◌, ◌^◌, ◌<◌, ℕ, true, false};
ghost use Rattle.cal_elapse.specs.computed.Bits.{is_bit};
ghost use Rattle.cal_elapse.specs.rules.Search.{IsFirstPassing};

/// Returns whether the set `mask` contains the number `index`, which must be below 64.
pub(crate) fn has_bit(mask: u64, index: u32) -> bool
    requires { index < 64 }
    ensures { result ≡ is_bit mask index }
{
    mask >> index & 1 == 1
}

/// Returns the set `mask` with the number `index` added. `index` must be below 64.
pub(crate) fn with_bit(mask: u64, index: u32) -> u64
    requires { index < 64 }
    ensures set { is_bit result index ≡ true }
    ensures others { (i : ℕ) → i ≢ index → is_bit result i ≡ is_bit mask i }
{
    mask | 1 << index
}

/// Returns the set `mask` without the number `index`, which must be below 64.
pub(crate) fn without_bit(mask: u64, index: u32) -> u64
    requires { index < 64 }
    ensures cleared { is_bit result index ≡ false }
    ensures others { (i : ℕ) → i < 64 → i ≢ index → is_bit result i ≡ is_bit mask i }
{
    mask & !(1 << index)
}

/// Returns the set `mask`, which must not be empty, without its smallest number.
pub(crate) fn without_lowest(mask: u64) -> u64
    requires { 0 < mask }
    ensures cleared { (lowest : ℕ) → IsFirstPassing (is_bit mask) 0 64 (Some lowest) → is_bit result lowest ≡ false }
    ensures others { (lowest i : ℕ) → IsFirstPassing (is_bit mask) 0 64 (Some lowest) → i ≢ lowest
        → is_bit result i ≡ is_bit mask i }
    ensures less { result < mask }
{
    mask & (mask - 1)
}

/// Returns the smallest number in the set `mask` that is at least `from`, or `None` if there is none. `from` must be
/// below 64.
pub(crate) fn next_bit(mask: u64, from: u32) -> Option<u32>
    requires { from < 64 }
    ensures { IsFirstPassing (is_bit mask) from 64 result }
{
    let rest = mask >> from;
    if rest == 0 {
        None
    } else {
        Some(from + rest.trailing_zeros())
    }
}

/// Returns the smallest number in the set `mask`, which must not be empty.
pub(crate) fn lowest_bit(mask: u64) -> u32
    requires { 0 < mask }
    ensures { IsFirstPassing (is_bit mask) 0 64 (Some result) }
{
    mask.trailing_zeros()
}

/// Returns the largest number in the set `mask`, which must not be empty.
pub(crate) fn highest_bit(mask: u64) -> u32
    requires { 0 < mask }
    ensures set { is_bit mask result ≡ true }
    ensures top { mask < 2 ^ (result + 1) }
{
    63 - mask.leading_zeros()
}
