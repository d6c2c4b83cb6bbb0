// What the rows of a table offer, which of them some document fits, and whether the table is admitted.
#![tactic(auto)]

ghost use Rattle.relation.specs.Faults.{admission_refusal};

use forms::refusals::Refused;

pub mod admission;
pub mod analysis;
pub mod inhabiting;
pub mod offering;

use std::error::Error;
use std::fmt;

/// Why a table is not admitted.
#[derive(Clone, Copy, PartialEq, Eq, Debug)]
pub enum AdmissionFault {
    /// 11: there are no rows
    NoRows,
    /// 12: a number in this row is not that of a row
    NumberOutside { row: u8 },
    /// 13: this row offers two different inhabited element rows with a common label
    LabelTwice { row: u8 },
}

impl Refused for AdmissionFault {
    ghost refusal = { admission_refusal };

    fn number(&self) -> u8 {
        match self {
            AdmissionFault::NoRows => 11,
            AdmissionFault::NumberOutside { .. } => 12,
            AdmissionFault::LabelTwice { .. } => 13,
        }
    }
}

impl fmt::Display for AdmissionFault {
    fn fmt<W: fmt::Write>(&self, f: &mut fmt::Formatter<W>) -> fmt::Result {
        write!(f, "the table is not admitted ({}): ", self.number())?;
        match self {
            AdmissionFault::NoRows => f.write_str("it has no rows"),
            AdmissionFault::NumberOutside { row } => write!(
                f,
                "row {row} has a number that is not that of a row"
            ),
            AdmissionFault::LabelTwice { row } => write!(
                f,
                "row {row} offers two different inhabited element rows with a common label"
            ),
        }
    }
}

impl Error for AdmissionFault {}
