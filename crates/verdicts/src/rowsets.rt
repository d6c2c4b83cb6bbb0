// A set of rows for each row: asking it and going through it.
ghost use Rattle.std.specs.Prelude.{◌≡◌, ℕ, ◌-◌, true, Decides};
ghost use Rattle.std.specs.Iterator.{at_most};
ghost use Rattle.sets.specs.Sets.{member, GoesOn};
ghost use Rattle.forms.specs.Limits.{max_rows};
ghost use Rattle.verdicts.specs.Ready.{in_row};
ghost use Rattle.verdicts.specs.RowSets.{row_set, WordsOf};

use relation::offering::ROW_WORDS;
use sets;

/// The set of one row. It goes through its members, from the lowest to the highest.
#[derive(Clone, Copy)]
pub struct RowSet<'a> {
    cells: &'a [u64],
    row: u8,
    start: u8,
}

impl<'a> RowSet<'a> {
    // The set of a row, of those of all rows.
    pub(crate) fn of(cells: &'a [u64], row: u8) -> RowSet<'a>
        ensures set { (o : ℕ) → row_set result o ≡ in_row cells.now row o }
        ensures start { result.start ≡ 0 }
    {
        RowSet {
            cells,
            row,
            start: 0,
        }
    }

    // Its words, if there are any for its row.
    fn words(&self) -> Option<&'a [u64]>
        ensures { WordsOf (row_set self.now) result }
    {
        let first = self.row as usize * ROW_WORDS;
        self.cells.get(first..first + ROW_WORDS)
    }

    /// Whether it has a row that is among the given ones.
    pub fn meets(&self, rows: &[u64]) -> bool
        ensures { Decides result ((o : ℕ) × (row_set self.now o ≡ true) × (member rows.now o ≡ true)) }
    {
        match self.words() {
            Some(words) => sets::meet(words, rows),
            None => false,
        }
    }
}

impl<'a> Iterator for RowSet<'a> {
    type Item = u8;

    ghost next_gives = { GoesOn row_set (λ s. s.start) };

    ghost remaining = { λ s. at_most (max_rows - s.start) };

    fn next(&mut self) -> Option<u8> {
        let o = sets::next(self.words()?, self.start as usize)? as u8;
        self.start = o + 1;
        Some(o)
    }
}
