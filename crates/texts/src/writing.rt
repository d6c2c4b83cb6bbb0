// Writing rows as text: first measured, then written.
ghost use Rattle.std.specs.Prelude.{◌≡◌, ◌≤◌, length};
ghost use Rattle.forms.specs.Buffers.{rows_of};
ghost use Rattle.forms.specs.Splices.{Wrote};
ghost use Rattle.texts.specs.RowText.{spelled_row, spelled};
ghost use Rattle.texts.specs.Writing.{WritingRowsIsOne, WrittenRowsAreRight, RightRowsAreWritten};
ghost use Rattle.texts.specs.Calls.{TotalFound, RowsWritten, ReadsBack};

use super::values::LABEL_DIGITS;
use super::{RowsFault, bytes};
use forms::buffer::RowBuffer;
use forms::bytes::digits;
use forms::{FormSource, MAX_ROWS, Row};

// The length of a row's line: its letter, three commas and byte 10, and its fields.
// A text that is too long leaves the buffer as it was, so its length is known before a byte of it is written.
fn line_length(row: Row) -> usize
    ensures value { result ≡ length (spelled_row row) }
    ensures few { result ≤ 27 }
{
    match row {
        Row::Void | Row::Nothing => 5,
        Row::Channel(_, payload) => 6 + digits(payload),
        Row::Element {
            inside,
            following,
            ..
        } => 5 + LABEL_DIGITS + digits(inside) + digits(following),
        Row::Union(left, right) => 5 + digits(left) + digits(right),
    }
}

// The length of the rows' text, if text can spell them.
fn measure(table: &RowBuffer) -> Result<usize, RowsFault>
    ensures { TotalFound (rows_of table.now) result }
{
    let mut total = 0;
    for (number, row) in table.rows().iter().enumerate() {
        if !row.numbers_below(MAX_ROWS) {
            return Err(RowsFault::NumberOver { row: number as u8 });
        }
        total += line_length(*row);
    }
    Ok(total)
}

// Writes the text of rows, where there is room for it, and returns its length.
fn write(rows: &[Row], out: &mut [u8]) -> usize
    ensures { Wrote out.old out.new 0 (spelled rows.now) result }
{
    let mut place = 0;
    for row in rows {
        place = bytes::put_row(out, place, *row);
    }
    place
}

/// Writes the rows of a source as text at the front of a buffer, and returns the text's length in bytes; the rest of the buffer stays.
///
/// # Errors
///
/// 4, then 5 (`RowsFault`). A refusal leaves the buffer as it was.
pub fn write_rows<S: FormSource>(source: &S, buffer: &mut [u8]) -> Result<usize, RowsFault>
    ensures written { RowsWritten (S.FormSource.rows source.now) buffer.old buffer.new result }
    ensures back { ReadsBack (S.FormSource.rows source.now) buffer.new result }
    ensures laws { WritingRowsIsOne × WrittenRowsAreRight × RightRowsAreWritten }
{
    let table = RowBuffer::of(source);
    let length = measure(&table)?;
    if length > buffer.len() {
        return Err(RowsFault::NoRoom);
    }
    Ok(write(table.rows(), buffer))
}
