//! A set of instants that are waiting to be returned in order.

ghost use Rattle.std.specs.Prelude.{◌≡◌, [], ℤ, pos, IfOk, slice_get, drop};
ghost use Rattle.std.specs.Ordering.{int_cmp};
ghost use Rattle.std.specs.List.Sorted.{IsStrictlySortedBy};
ghost use Rattle.std.specs.BTreeSet.{insert_key};
ghost use Rattle.cal_zone.specs.rules.Instant.{IsInstant};
ghost use Rattle.cal_elapse.specs.computed.Ring.{IsNear};
ghost use Rattle.cal_rising.specs.rules.Elements.{Has};

use crate::NoMemory;
use crate::ring::{CELL_WORDS, CELLS, clear_cell, first_held, set_cell, set_cells};
use std::alloc::Global;
use std::marker::Model;

/// The value of `least` for an empty set. It is later than every instant.
const NO_SECOND: u64 = u64::MAX;

/// A set of instants. A contract sees it as a strictly increasing list.
///
/// The set is a ring of 187,200 cells, one bit each. The cell of an instant is its number of seconds modulo 187,200.
/// Any two elements differ by at most 187,199 seconds, so no two elements share a cell. Only `new` allocates.
#[derive(Drop)]
pub struct Pending {
    /// One bit for each cell.
    cells: Box<[u64; CELL_WORDS]>,
    /// The smallest element, or `NO_SECOND` if the set is empty. The ring is read from the cell of this element on. The
    /// element is stored so that the function `least` doesn't have to scan the ring; only `take_least` scans it.
    least: u64,
}

impl Model for Pending {
    ghost use Rattle.std.specs.Prelude.{ℤ, List, box_value};
    ghost use Rattle.cal_elapse.specs.computed.Ring.{IsRoundFrom, instants_in};

    ghost Value = { List ℤ };

    ghost view = { λ p. instants_in (box_value p.cells) p.least };

    ghost invariant = { λ p. IsRoundFrom (box_value p.cells) p.least };
}

impl Pending {
    ghost use Rattle.std.specs.Prelude.{◌⊎◌, ◌↔◌, ◌<ℤ◌, IsSomeAnd};
    ghost use Rattle.cal_elapse.specs.computed.Ring.{IsOneOf};

    /// Creates an empty set. Fails with `NoMemory` if allocation fails.
    pub fn new(alloc: Global) -> Result<Pending, NoMemory>
        ensures { IfOk result (λ pending. pending ≡ []) }
    {
        Ok(Pending {
            cells: Box::new(alloc, [0; CELL_WORDS])?,
            least: NO_SECOND,
        })
    }

    /// Adds an instant. It must differ from each element by at most 187,199 seconds.
    pub fn put(&mut self, instant: i64)
        requires instant { IsInstant instant }
        requires near { (member : ℤ) → Has self.old member → IsNear member instant }
        ensures { self.new ≡ insert_key int_cmp self.old instant }
    {
        let second = second_of(instant);
        set_cell(self.cells.as_mut_slice(), second % CELLS);
        self.least = self.least.min(second);
    }

    /// Adds the instant `start` + i for each set bit i of `bits`. The set must not be empty. All new instants must be
    /// later than the smallest element of the set, and must differ from each element by at most 187,199 seconds.
    pub fn put_bits(&mut self, start: i64, bits: u64)
        requires begun { IsSomeAnd (slice_get self.old 0) (λ least. least <ℤ start) }
        requires instants { (i : ℤ) → IsOneOf start bits i → IsInstant i }
        requires near { (member i : ℤ) → Has self.old member → IsOneOf start bits i → IsNear member i }
        ensures first { slice_get self.new 0 ≡ slice_get self.old 0 }
        ensures rises { IsStrictlySortedBy int_cmp self.new }
        ensures members { (i : ℤ) → Has self.new i ↔ (Has self.old i ⊎ IsOneOf start bits i) }
    {
        let second = start.unsigned_abs();
        set_cells(self.cells.as_mut_slice(), second % CELLS, bits);
    }

    /// Returns the smallest element, or `None` if the set is empty.
    pub fn least(&self) -> Option<i64>
        ensures least { result ≡ slice_get self.now 0 }
        ensures rises { IsStrictlySortedBy int_cmp self.now }
        ensures near { (one other : ℤ) → Has self.now one → Has self.now other → IsNear one other }
    {
        if self.least == NO_SECOND {
            None
        } else {
            Some(self.least as i64)
        }
    }

    /// Removes and returns the smallest element. Returns `None` if the set is empty.
    pub fn take_least(&mut self) -> Option<i64>
        ensures least { result ≡ slice_get self.old 0 }
        ensures left { self.new ≡ drop 1 self.old }
    {
        let second = self.least;
        if second == NO_SECOND {
            return None;
        }
        clear_cell(self.cells.as_mut_slice(), second % CELLS);
        self.least = first_held(self.cells.as_slice(), second).unwrap_or(NO_SECOND);
        Some(second as i64)
    }
}

/// Returns an instant as an unsigned number of seconds. Instants are never negative.
fn second_of(instant: i64) -> u64
    requires { IsInstant instant }
    ensures { pos result ≡ instant }
{
    instant as u64
}
