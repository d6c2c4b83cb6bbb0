// Reading a row text: its lines in order, up to the first fault.
ghost use Rattle.std.specs.Prelude.{◌≡◌, List};
ghost use Rattle.forms.specs.declared.Row.{Row};
ghost use Rattle.forms.specs.Laws.{buffer_laws};
ghost use Rattle.forms.specs.Refusals.{Outcome};
ghost use Rattle.texts.specs.RowText.{Judged, JudgementIsOne, RightIsSpelled, SpelledIsShort};
ghost use Rattle.texts.specs.Calls.{text_rows, checked, WritesBack, spelled_by};

use super::{MAX_TEXT, RowText, TextFault, lines};
use forms::buffer::RowBuffer;
use forms::{FormSource, MAX_ROWS, Row};

impl RowText {
    /// The rows that a text spells, or why it spells none.
    ///
    /// # Errors
    ///
    /// 1, and then from the top the first of 2 and 3 (`TextFault`).
    pub fn read(text: &[u8]) -> Result<RowText, TextFault>
        ensures judged { Judged text.now (checked result) }
        ensures back { WritesBack text.now result }
        ensures laws { JudgementIsOne × RightIsSpelled × SpelledIsShort }
    {
        if text.len() > MAX_TEXT {
            return Err(TextFault::TooLong);
        }
        let mut table = RowBuffer::empty();
        let mut rest = text;
        while !rest.is_empty() {
            let line = table.count();
            if line == MAX_ROWS {
                return Err(TextFault::TooManyLines);
            }
            // With `map_err` and `?` the proof would have to find the field again in what a closure gave.
            match lines::line(rest) {
                Ok((row, next)) => {
                    table.push(row);
                    rest = next;
                }
                Err(field) => {
                    return Err(TextFault::WrongLine {
                        line: line as u8,
                        field,
                    });
                }
            }
        }
        Ok(RowText { table })
    }

    /// The rows that a text spells, or none where checking refuses it. Making a source never refuses: `read` says why a text spells no rows.
    pub fn new(text: &[u8]) -> RowText
        ensures { (o : Outcome (List Row)) → Judged text.now o → text_rows result ≡ spelled_by o }
    {
        match RowText::read(text) {
            Ok(read) => read,
            Err(_) => RowText {
                table: RowBuffer::empty(),
            },
        }
    }

    /// The rows as a slice.
    pub fn rows(&self) -> &[Row]
        ensures { result.now ≡ text_rows self.now }
    {
        self.table.rows()
    }
}

impl FormSource for RowText {
    ghost rows = { text_rows };

    ghost lawful = { λ s. buffer_laws s.table };

    fn count(&self) -> usize {
        self.table.count()
    }

    fn row(&self, number: u8) -> Option<Row> {
        self.table.row(number)
    }
}
