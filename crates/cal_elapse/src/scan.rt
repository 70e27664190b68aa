//! The search for the first word of a slice that isn't 0, several words at a time.

ghost use Rattle.std.specs.Prelude.{◌≡◌, ◌<◌, ◌≤◌, ℕ, false, not, ◌==◌, length, slice_index_or};
ghost use Rattle.std.specs.List.{position};
ghost use Rattle.cal_elapse.specs.computed.Bits.{is_set};

use std::simd::prelude::*;

/// The number of words that are loaded and tested at once.
const LANES: usize = 32;

/// The number of words that are tested at once near a word that isn't 0.
const FEW_LANES: usize = 8;

/// Returns the index of the first word that isn't 0, or `None` if all words are 0.
pub fn first_set(cells: &[u64]) -> Option<usize>
    ensures { result ≡ position (λ x. not (x == 0)) cells.now }
{
    for at in more_zeros(cells, zeros_in_front(cells))..cells.len() {
        if cells[at] != 0 {
            return Some(at);
        }
    }
    None
}

/// Returns how many words come before the first group that has a word other than 0. If there is no such group, returns
/// the number of words in all groups. A group is `LANES` words; the groups are consecutive, and the first one begins at
/// index 0. The words after the last whole group aren't tested.
fn zeros_in_front(cells: &[u64]) -> usize
    ensures inside { result ≤ length cells.now }
    ensures zeros { (k : ℕ) → k < result → is_set (slice_index_or cells.now k 0) ≡ false }
{
    for block in 0..cells.len() / LANES {
        let at = block * LANES;
        if u64x32::from_slice(&cells[at..]).reduce_or() != 0 {
            return at;
        }
    }
    cells.len() / LANES * LANES
}

/// Returns how many words come before the first group that has a word other than 0, as `zeros_in_front` does. Here a
/// group is `FEW_LANES` words, and the first group begins at the index `from`. All words before `from` must be 0; they
/// are included in the result.
fn more_zeros(cells: &[u64], from: usize) -> usize
    requires inside { from ≤ length cells.now }
    requires zeros { (k : ℕ) → k < from → is_set (slice_index_or cells.now k 0) ≡ false }
    ensures inside { result ≤ length cells.now }
    ensures zeros { (k : ℕ) → k < result → is_set (slice_index_or cells.now k 0) ≡ false }
{
    let blocks = (cells.len() - from) / FEW_LANES;
    for block in 0..blocks {
        let at = from + block * FEW_LANES;
        if u64x8::from_slice(&cells[at..]).reduce_or() != 0 {
            return at;
        }
    }
    from + blocks * FEW_LANES
}
