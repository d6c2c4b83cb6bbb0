// Row text: rows read from bytes, and written to bytes.
#![tactic(auto)]

ghost use Rattle.texts.specs.Faults.{text_refusal, rows_refusal};

use forms::buffer::RowBuffer;
use forms::refusals::Refused;

mod bytes;
mod fields;
mod kinds;
mod lines;
pub mod reading;
mod values;
mod words;
pub mod writing;

/// The most bytes that a row text has.
pub const MAX_TEXT: usize = 1600;

/// The rows of a text, read once.
#[derive(Drop)]
pub struct RowText {
    table: RowBuffer,
}

/// Why a text is refused, each case with a number of its own (`text_refusal`). Lines and their fields are counted from 0.
#[derive(Clone, Copy, PartialEq, Eq, Debug)]
pub enum TextFault {
    /// 1: more than 1,600 bytes
    TooLong,
    /// 2: the first wrong field of the first wrong line
    WrongLine { line: u8, field: u8 },
    /// 3: a 65th line begins
    TooManyLines,
}

impl Refused for TextFault {
    ghost refusal = { text_refusal };

    fn number(&self) -> u8 {
        match self {
            TextFault::TooLong => 1,
            TextFault::WrongLine { .. } => 2,
            TextFault::TooManyLines => 3,
        }
    }
}

/// Why rows are not written, each case with a number of its own (`rows_refusal`).
#[derive(Clone, Copy, PartialEq, Eq, Debug)]
pub enum RowsFault {
    /// 4: the lowest row with a number over 63
    NumberOver { row: u8 },
    /// 5: the text is longer than the buffer
    NoRoom,
}

impl Refused for RowsFault {
    ghost refusal = { rows_refusal };

    fn number(&self) -> u8 {
        match self {
            RowsFault::NumberOver { .. } => 4,
            RowsFault::NoRoom => 5,
        }
    }
}
