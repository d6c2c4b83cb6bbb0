// Why a row number is refused.
ghost use Rattle.verdicts.specs.Faults.{row_refusal};

use forms::refusals::Refused;
use std::error::Error;
use std::fmt;

/// Why a call about rows is refused.
#[derive(Clone, Copy, PartialEq, Eq, Debug)]
pub enum RowFault {
    /// 21: a row number is not below the count of rows
    Outside,
}

impl Refused for RowFault {
    ghost refusal = { row_refusal };

    fn number(&self) -> u8 {
        match self {
            RowFault::Outside => 21,
        }
    }
}

impl fmt::Display for RowFault {
    fn fmt<W: fmt::Write>(&self, f: &mut fmt::Formatter<W>) -> fmt::Result {
        write!(f, "refused ({}): ", self.number())?;
        match self {
            RowFault::Outside => f.write_str("a row number is not below the count of rows"),
        }
    }
}

impl Error for RowFault {}
