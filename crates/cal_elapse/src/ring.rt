//! A ring of cells, one bit each, in words of 64 bits. The cell of an instant is its number of seconds modulo the
//! number of cells.

ghost use Rattle.std.specs.Prelude.{◌≡◌, ◌≢◌, ◌+◌, ◌*◌, ◌<◌, ◌≤ℤ◌, ℕ, pos, true, false, ◌||◌, length};
ghost use Rattle.cal_zone.specs.rules.Instant.{last_instant};
ghost use Rattle.cal_elapse.specs.computed.Bits.{is_bit, is_bit_in};
ghost use Rattle.cal_elapse.specs.computed.Ring.{cells_behind, is_held, cell_words, cell_count};
ghost use Rattle.cal_elapse.specs.rules.Search.{IsFirstPassing};

use crate::bits::{lowest_bit, next_bit, with_bit, without_bit};
use crate::scan::first_set;
use cal_civil::MAX_OFFSET;

/// The number of cells. It is more than twice `MAX_OFFSET`, the largest distance in seconds between a local second and
/// its instant, and a multiple of 64.
pub const CELLS: u64 = 2 * (MAX_OFFSET as u64 + 1);

/// The number of words of 64 bits that hold the cells.
pub const CELL_WORDS: usize = CELLS as usize / 64;

/// Returns the first second at or after `low` whose cell is set, or `None` if no cell is set. Searches only the
/// [`CELLS`] seconds from `low` on, so that each cell stands for one second.
pub fn first_held(cells: &[u64], low: u64) -> Option<u64>
    requires whole { length cells.now ≡ cell_words }
    requires low { pos low ≤ℤ last_instant }
    ensures { IsFirstPassing (is_held cells.now) low (low + cell_count) result }
{
    let cell = low % CELLS;
    let start = low - cell;
    if let Some(found) = next_cell(cells, cell) {
        return Some(start + found);
    }
    match next_cell(cells, 0) {
        Some(found) => Some(start + CELLS + found),
        None => None,
    }
}

/// Returns the first cell at or after `from` that is set, or `None` if there is none. Does not wrap around at the end
/// of the ring.
fn next_cell(cells: &[u64], from: u64) -> Option<u64>
    requires whole { length cells.now ≡ cell_words }
    requires inside { from < cell_count }
    ensures { IsFirstPassing (is_bit_in cells.now) from cell_count result }
{
    let word = (from / 64) as usize;
    if let Some(bit) = next_bit(cells[word], (from % 64) as u32) {
        return Some(cell_at(word, bit));
    }
    let Some(later) = first_set(cells.split_at(word + 1).1) else {
        return None;
    };
    let word = word + 1 + later;
    Some(cell_at(word, lowest_bit(cells[word])))
}

fn cell_at(word: usize, bit: u32) -> u64
    requires word { word < cell_words }
    requires bit { bit < 64 }
    ensures { result ≡ word * 64 + bit }
{
    word as u64 * 64 + u64::from(bit)
}

/// Sets the cell with the index `cell`, which must be below [`CELLS`].
pub fn set_cell(cells: &mut [u64], cell: u64)
    requires whole { length cells.old ≡ cell_words }
    requires inside { cell < cell_count }
    ensures whole { length cells.new ≡ cell_words }
    ensures set { is_bit_in cells.new cell ≡ true }
    ensures others { (i : ℕ) → i ≢ cell → is_bit_in cells.new i ≡ is_bit_in cells.old i }
{
    let word = (cell / 64) as usize;
    cells[word] = with_bit(cells[word], (cell % 64) as u32);
}

/// Sets a cell for each set bit of `bits`: bit 0 stands for the cell with the index `cell`, and bit i for the i-th cell
/// after it. Wraps around at the end of the ring.
pub fn set_cells(cells: &mut [u64], cell: u64, bits: u64)
    requires whole { length cells.old ≡ cell_words }
    requires inside { cell < cell_count }
    ensures whole { length cells.new ≡ cell_words }
    ensures set { (i : ℕ) → i < cell_count
        → is_bit_in cells.new i ≡ (is_bit_in cells.old i || is_bit bits (cells_behind cell i)) }
{
    let word = (cell / 64) as usize;
    let shift = (cell % 64) as u32;
    cells[word] |= bits << shift;
    let next = if word + 1 == CELL_WORDS { 0 } else { word + 1 };
    cells[next] |= bits >> 1 >> (63 - shift);
}

/// Clears the cell with the index `cell`, which must be below [`CELLS`].
pub fn clear_cell(cells: &mut [u64], cell: u64)
    requires whole { length cells.old ≡ cell_words }
    requires inside { cell < cell_count }
    ensures whole { length cells.new ≡ cell_words }
    ensures cleared { is_bit_in cells.new cell ≡ false }
    ensures others { (i : ℕ) → i ≢ cell → is_bit_in cells.new i ≡ is_bit_in cells.old i }
{
    let word = (cell / 64) as usize;
    cells[word] = without_bit(cells[word], (cell % 64) as u32);
}
