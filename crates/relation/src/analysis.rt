// What is worked out from the rows of a table.
ghost use Rattle.std.specs.Prelude.{◌≡◌, ◌≤◌, ◌&&◌, length, nat_lt};
ghost use Rattle.sets.specs.Sets.{member};
ghost use Rattle.forms.specs.Buffers.{rows_of};
ghost use Rattle.forms.specs.Limits.{max_rows};
ghost use Rattle.relation.specs.Cells.{cell};
ghost use Rattle.relation.specs.Judged.{Analyzed};

use super::inhabiting::inhabited_rows;
use super::offering::{CELL_WORDS, ROW_WORDS, has, offered_rows};
use forms::FormSource;
use forms::buffer::RowBuffer;
use sets;

/// Which rows each row of a table offers, and which rows are inhabited.
#[derive(Drop)]
pub struct Analysis {
    offered: [u64; CELL_WORDS],
    inhabited: [u64; ROW_WORDS],
}

impl Analysis {
    /// Whether row p offers row o.
    pub fn offers(&self, p: u8, o: u8) -> bool
        ensures { result ≡ (nat_lt o max_rows && cell self.now.offered p o) }
    {
        has(self.offered(), p as u16, o)
    }

    /// For each row the set of the rows that it offers: row o belongs to that of row p by bit p × 64 + o.
    pub fn offered(&self) -> &[u64; CELL_WORDS]
        ensures { result.now ≡ self.now.offered }
    {
        &self.offered
    }

    /// Whether some document fits row p.
    pub fn is_inhabited(&self, p: u8) -> bool
        ensures { result ≡ member self.now.inhabited p }
    {
        sets::test(&self.inhabited, p as usize)
    }
}

// What is worked out from the rows of a table.
pub(crate) fn analyze_table(table: &RowBuffer) -> Analysis
    ensures { Analyzed (rows_of table.now) result }
{
    Analysis {
        offered: offered_rows(table),
        inhabited: inhabited_rows(table),
    }
}

/// Works out which rows the rows of a source offer, and which are inhabited. A number past the table offers nothing.
pub fn analyze<S: FormSource>(source: &S) -> Analysis
    ensures { Analyzed (S.FormSource.rows source.now) result }
{
    analyze_table(&RowBuffer::of(source))
}
