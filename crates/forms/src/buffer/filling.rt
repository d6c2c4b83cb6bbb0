// How a row buffer is made, and that it is a source.
ghost use Rattle.std.specs.Prelude.{◌≡◌, ◌<◌, ◌≤◌, true, [], length, nat_lt};
ghost use Rattle.std.specs.List.{slice_get};
ghost use Rattle.forms.specs.Limits.{max_rows};
ghost use Rattle.forms.specs.Rows.{fits, few};
ghost use Rattle.forms.specs.Laws.{buffer_laws};
ghost use Rattle.forms.specs.Buffers.{rows_of, pushed};

use super::super::{FormSource, MAX_ROWS, Row};
use super::RowBuffer;

impl RowBuffer {
    /// No rows.
    pub fn empty() -> RowBuffer
        ensures { rows_of result ≡ [] }
    {
        RowBuffer {
            table: [Row::Void; MAX_ROWS],
            count: 0,
        }
    }

    /// One row more at the end; false, and no change, where there are 64.
    pub fn push(&mut self, row: Row) -> bool
        ensures taken { result ≡ nat_lt (length (rows_of self.old)) max_rows }
        ensures now { rows_of self.new ≡ pushed (rows_of self.old) row }
    {
        if self.count >= MAX_ROWS {
            return false;
        }
        self.table[self.count] = row;
        self.count += 1;
        true
    }

    /// The rows of a slice, or none if it has more than 64. Making a source never refuses: a table without rows is one that admission refuses.
    pub fn new(rows: &[Row]) -> RowBuffer
        ensures { rows_of result ≡ few rows.now }
    {
        let mut buffer = RowBuffer::empty();
        if rows.len() <= MAX_ROWS {
            for row in rows {
                buffer.push(*row);
            }
        }
        buffer
    }

    /// The rows of any source.
    pub fn of<S: FormSource>(source: &S) -> RowBuffer
        ensures { rows_of result ≡ S.FormSource.rows source.now }
    {
        let mut buffer = RowBuffer::empty();
        for number in 0..source.count() {
            if let Some(row) = source.row(number as u8) {
                buffer.push(row);
            }
        }
        buffer
    }

    /// The rows as a slice.
    pub fn rows(&self) -> &[Row]
        ensures is { result.now ≡ rows_of self.now }
        ensures few { length result.now ≤ max_rows }
    {
        &self.table[0..self.count]
    }
}

impl FormSource for RowBuffer {
    ghost rows = { rows_of };

    ghost lawful = { buffer_laws };

    fn count(&self) -> usize {
        self.rows().len()
    }

    fn row(&self, number: u8) -> Option<Row> {
        self.rows().get(number as usize).copied()
    }
}
