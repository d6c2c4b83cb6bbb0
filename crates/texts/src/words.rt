// The faults in words.
use super::{RowsFault, TextFault};
use forms::refusals::Refused;
use std::error::Error;
use std::fmt;

// What is asked for in a field.
fn field_words(field: u8) -> &'static str {
    match field {
        0 => "field 0, the kind: V, N, C, E or U is asked for",
        1 =>
            "field 1: i, o or b for C, 16 hexadecimal digits for E, else nothing is asked for, and then a comma",
        2 =>
            "field 2: a row number from 0 to 63 for C, E and U, else nothing is asked for, and then a comma",
        _ =>
            "field 3: a row number from 0 to 63 for E and U, else nothing is asked for, and then the end of the line",
    }
}

impl fmt::Display for TextFault {
    fn fmt<W: fmt::Write>(&self, f: &mut fmt::Formatter<W>) -> fmt::Result {
        write!(f, "the text is refused ({}): ", self.number())?;
        match self {
            TextFault::TooLong => f.write_str("it has more than 1,600 bytes"),
            TextFault::WrongLine { line, field } => write!(
                f,
                "line {line} is wrong at {} (lines and fields are counted from 0)",
                field_words(*field)
            ),
            TextFault::TooManyLines => f.write_str("it has more than 64 lines"),
        }
    }
}

impl Error for TextFault {}

impl fmt::Display for RowsFault {
    fn fmt<W: fmt::Write>(&self, f: &mut fmt::Formatter<W>) -> fmt::Result {
        write!(f, "it cannot be written ({}): ", self.number())?;
        match self {
            RowsFault::NumberOver { row } => write!(
                f,
                "row {row} has a number above 63, since it pointed past its own table"
            ),
            RowsFault::NoRoom => f.write_str("the text is longer than the buffer"),
        }
    }
}

impl Error for RowsFault {}
