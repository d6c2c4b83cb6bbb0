// Why a question is refused, in words.
use super::faults::{CompareFault, JoinFault, Side};
use forms::MAX_ROWS;
use forms::refusals::Refused;
use std::error::Error;
use std::fmt;

// Whose table it is.
impl fmt::Display for Side {
    fn fmt<W: fmt::Write>(&self, f: &mut fmt::Formatter<W>) -> fmt::Result {
        match self {
            Side::Ours => f.write_str("our"),
            Side::Theirs => f.write_str("their"),
        }
    }
}

impl fmt::Display for JoinFault {
    fn fmt<W: fmt::Write>(&self, f: &mut fmt::Formatter<W>) -> fmt::Result {
        write!(
            f,
            "no answer ({}): the two tables have more than {MAX_ROWS} rows together",
            self.number()
        )
    }
}

impl Error for JoinFault {}

impl fmt::Display for CompareFault {
    fn fmt<W: fmt::Write>(&self, f: &mut fmt::Formatter<W>) -> fmt::Result {
        let code = self.code();
        // The first two have one text, but their faults are of different types, so that one arm cannot bind both.
        match self {
            CompareFault::Text(side, fault) => write!(f, "no answer: {side} table: {fault}"),
            CompareFault::Admission(side, fault) => write!(f, "no answer: {side} table: {fault}"),
            CompareFault::Joining(fault) => write!(f, "{fault}"),
            CompareFault::Row(side, _) => write!(
                f,
                "no answer ({code}): {side} table has no row with the number that was asked about"
            ),
            CompareFault::Asking(fault) => write!(f, "no answer: {fault}"),
            CompareFault::Writing(fault) => write!(f, "{fault}"),
        }
    }
}

impl Error for CompareFault {}
