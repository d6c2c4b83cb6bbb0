// Which rows each row offers: a set of rows for each row, to which the sets of its sides are added until nothing changes.
ghost use Rattle.std.specs.Prelude.{◌≡◌, ℕ, ◌*◌, ◌<◌, ◌≤◌, true, false, length, Decides, bit_or, nat_lt, ◌&&◌};
ghost use Rattle.sets.specs.Sets.{word, bit};
ghost use Rattle.forms.specs.Buffers.{rows_of};
ghost use Rattle.forms.specs.Limits.{max_rows};
ghost use Rattle.forms.specs.Schema.{Offers, NoUnion};
ghost use Rattle.relation.specs.Cells.{cell, Sound, HoldsLeaves, RowAdded, Spread};

use forms::buffer::RowBuffer;
use forms::{MAX_ROWS, Row};
use sets;

/// A set of rows has so many words.
pub const ROW_WORDS: usize = MAX_ROWS / sets::WORD;

/// And a set of rows for each row has so many. They are one run of words, as the marks of a fit are, so that `has` reads both.
pub const CELL_WORDS: usize = MAX_ROWS * ROW_WORDS;

/// Whether o belongs to the set of row p, of sets of rows that stand one after another. No, if p has no set there or o is no row number.
pub fn has(cells: &[u64], p: u16, o: u8) -> bool
    ensures { result ≡ (nat_lt o max_rows && cell cells.now p o) }
{
    (o as usize) < MAX_ROWS && sets::test(cells, p as usize * MAX_ROWS + o as usize)
}

// Whether the row is no union.
fn is_leaf(row: Row) -> bool
    ensures { Decides result (NoUnion row) }
{
    !matches!(row, Row::Union(_, _))
}

// Each row that is no union offers itself.
fn themselves(table: &RowBuffer) -> [u64; CELL_WORDS]
    ensures sound { Sound (rows_of table.now) result }
    ensures leaves { HoldsLeaves (rows_of table.now) result }
{
    let mut cells = [0; CELL_WORDS];
    for (p, row) in table.rows().iter().enumerate() {
        if is_leaf(*row) {
            sets::put(&mut cells, p * MAX_ROWS + p);
        }
    }
    cells
}

// Adds to the set of row p that of row k, and says whether it grew. A number past the table has no set.
fn add_row(cells: &mut [u64; CELL_WORDS], p: usize, k: usize) -> bool
    requires { p < max_rows }
    ensures { RowAdded p k cells.old cells.new result }
{
    if k >= MAX_ROWS {
        return false;
    }
    let mut other = [0; ROW_WORDS];
    other.copy_from_slice(&cells[k * ROW_WORDS..(k + 1) * ROW_WORDS]);
    sets::join(&mut cells[p * ROW_WORDS..(p + 1) * ROW_WORDS], &other) > 0
}

// Adds to the set of each union those of its sides, and says whether one grew.
fn spread(table: &RowBuffer, cells: &mut [u64; CELL_WORDS]) -> bool
    ensures { Spread (rows_of table.now) cells.old cells.new result }
{
    let mut grown = false;
    for (p, row) in table.rows().iter().enumerate() {
        if let Row::Union(left, right) = row {
            grown |= add_row(cells, p, *left as usize);
            grown |= add_row(cells, p, *right as usize);
        }
    }
    grown
}

// For each row the rows that it offers.
pub(crate) fn offered_rows(table: &RowBuffer) -> [u64; CELL_WORDS]
    ensures { (p o : ℕ) → p < max_rows → o < max_rows → Decides (cell result p o) (Offers (rows_of table.now) p o) }
{
    let mut cells = themselves(table);
    while spread(table, &mut cells) {}
    cells
}
