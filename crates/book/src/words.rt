// The faults of a book in words.
use super::types::BookFault;
use forms::refusals::Refused;
use showing::faults::ShowFault;
use std::error::Error;
use std::fmt;

impl fmt::Display for BookFault {
    fn fmt<W: fmt::Write>(&self, f: &mut fmt::Formatter<W>) -> fmt::Result {
        let number = self.number();
        match self {
            BookFault::NotAdmitted(fault) => write!(f, "the book is shut: {fault}"),
            BookFault::NoRow(fault) => write!(f, "{fault}"),
            BookFault::RelationLength => write!(
                f,
                "refused ({number}): the length is not that of a relation between the rows, which is one bit a pair in 64-bit numbers, rounded up"
            ),
            BookFault::BitOutside => write!(
                f,
                "refused ({number}): the relation has a bit that is no pair's"
            ),
            BookFault::RuleBroken { p, q } => write!(
                f,
                "refused ({number}): the pair ({p}, {q}) breaks the rules within the relation"
            ),
            BookFault::NotShown(ShowFault::NotNo) => write!(
                f,
                "refused ({number}): the pair is not held as no, so there is nothing to show"
            ),
            BookFault::NotShown(fault) => write!(f, "{fault}"),
            BookFault::NotFitted(fault) => write!(f, "{fault}"),
        }
    }
}

impl Error for BookFault {}
