// Why a question is refused: the layer that refuses it, the fault's number, and where it lies.
ghost use Rattle.std.specs.Prelude.{◌≡◌};
ghost use Rattle.compare.specs.declared.faults.CompareFault.TheVariants.{Text, Admission, Joining, Row, Asking, Writing};
ghost use Rattle.compare.specs.Reports.{which, join_refusal, report, Says};

use book::types::BookFault;
use documents::faults::WriteFault;
use forms::refusals::Refused;
use relation::AdmissionFault;
use texts::TextFault;
use verdicts::faults::RowFault;

/// The two tables: the caller's own, and the one that it is compared with.
///
/// The first row asked about is of ours, the second of theirs.
#[derive(Clone, Copy, PartialEq, Eq, Debug)]
pub enum Side {
    Ours,
    Theirs,
}

/// A fault of one of the two tables, with the side whose table it is.
#[derive(Clone, Copy, PartialEq, Eq, Debug)]
pub struct SideFault<F> {
    pub side: Side,
    pub fault: F,
}

/// Why two tables are not joined.
#[derive(Clone, Copy, PartialEq, Eq, Debug)]
pub enum JoinFault {
    /// 10: they have more rows together than a table has
    TooManyRows,
}

/// Why a question is refused. `layer`, `code` and `place` say it in numbers.
///
/// Each layer of a comparison has a fault of its own, which passes up by `?` into a case here: callers read from it the
/// layer, the number and the place of the first fault.
#[derive(Clone, Copy, PartialEq, Eq, Debug)]
pub enum CompareFault {
    /// layers 1 and 2: the text of our table is refused, or of theirs
    Text(Side, TextFault),
    /// layers 3 and 4: our table is not admitted, or theirs is not
    Admission(Side, AdmissionFault),
    /// layer 5: the tables are not joined
    Joining(JoinFault),
    /// layer 6: the row that is asked about is not one of this side's table
    Row(Side, RowFault),
    /// layer 6: the book refuses a question about two of its rows, which no comparison meets
    Asking(BookFault),
    /// layer 7: the order that shows a no is not written
    Writing(WriteFault),
}

impl From<SideFault<TextFault>> for CompareFault {
    ghost from_gives = { λ e f. f ≡ Text e.side e.fault };

    fn from(e: SideFault<TextFault>) -> CompareFault {
        CompareFault::Text(e.side, e.fault)
    }
}

impl From<SideFault<AdmissionFault>> for CompareFault {
    ghost from_gives = { λ e f. f ≡ Admission e.side e.fault };

    fn from(e: SideFault<AdmissionFault>) -> CompareFault {
        CompareFault::Admission(e.side, e.fault)
    }
}

impl From<JoinFault> for CompareFault {
    ghost from_gives = { λ e f. f ≡ Joining e };

    fn from(e: JoinFault) -> CompareFault {
        CompareFault::Joining(e)
    }
}

impl From<SideFault<RowFault>> for CompareFault {
    ghost from_gives = { λ e f. f ≡ Row e.side e.fault };

    fn from(e: SideFault<RowFault>) -> CompareFault {
        CompareFault::Row(e.side, e.fault)
    }
}

impl From<BookFault> for CompareFault {
    ghost from_gives = { λ e f. f ≡ Asking e };

    fn from(e: BookFault) -> CompareFault {
        CompareFault::Asking(e)
    }
}

impl From<WriteFault> for CompareFault {
    ghost from_gives = { λ e f. f ≡ Writing e };

    fn from(e: WriteFault) -> CompareFault {
        CompareFault::Writing(e)
    }
}

/// 0 for ours, 1 for theirs.
impl From<Side> for u8 {
    ghost from_gives = { λ side n. n ≡ which side };

    fn from(side: Side) -> u8 {
        match side {
            Side::Ours => 0,
            Side::Theirs => 1,
        }
    }
}

impl Refused for JoinFault {
    ghost refusal = { join_refusal };

    fn number(&self) -> u8 {
        match self {
            JoinFault::TooManyRows => 10,
        }
    }
}

impl CompareFault {
    /// The layer that refuses, from 1 to 7.
    pub fn layer(&self) -> u8
        ensures { result ≡ (report self.now).layer }
    {
        match self {
            CompareFault::Text(side, _) => 1 + u8::from(*side),
            CompareFault::Admission(side, _) => 3 + u8::from(*side),
            CompareFault::Joining(_) => 5,
            CompareFault::Row(_, _) | CompareFault::Asking(_) => 6,
            CompareFault::Writing(_) => 7,
        }
    }

    /// The fault's number within its layer.
    pub fn code(&self) -> u8
        ensures { result ≡ (report self.now).code }
    {
        match self {
            CompareFault::Text(_, fault) => fault.number(),
            CompareFault::Admission(_, fault) => fault.number(),
            CompareFault::Joining(fault) => fault.number(),
            CompareFault::Row(_, fault) => fault.number(),
            CompareFault::Asking(fault) => fault.number(),
            CompareFault::Writing(fault) => fault.number(),
        }
    }

    /// Where the fault lies: 4 × line + field for a wrong line of a text; the row for a fault of admission; 1 if only the
    /// row of theirs is outside; the node for one that is not sound; else 0.
    pub fn place(&self) -> u32
        ensures { result ≡ (report self.now).place }
    {
        match self {
            CompareFault::Text(_, TextFault::WrongLine { line, field }) => 4 * *line as u32
                + *field as u32,
            CompareFault::Admission(_, AdmissionFault::NumberOutside { row }) => *row as u32,
            CompareFault::Admission(_, AdmissionFault::LabelTwice { row }) => *row as u32,
            CompareFault::Row(side, _) => u8::from(*side) as u32,
            CompareFault::Writing(WriteFault::Unsound { node }) => *node as u32,
            _ => 0,
        }
    }

    /// All three as one number, code + 256 × layer + 65,536 × place, for a program in C, which takes one number.
    pub fn packed(&self) -> u64
        ensures { Says result (report self.now) }
    {
        self.code() as u64 + 256 * self.layer() as u64 + 65536 * self.place() as u64
    }
}
