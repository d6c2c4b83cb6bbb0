// What a book answers, and why it refuses.
ghost use Rattle.std.specs.Prelude.{◌≡◌};
ghost use Rattle.book.specs.Faults.{book_refusal};
ghost use Rattle.book.specs.declared.types.BookFault.TheVariants.{NotAdmitted, NoRow, NotShown, NotFitted};

use fitting::faults::FitFault;
use forms::refusals::Refused;
use relation::AdmissionFault;
use showing::faults::ShowFault;
use verdicts::faults::RowFault;

/// Whether every order that fits the first row of a pair fits the second.
#[derive(Clone, Copy, PartialEq, Eq, Debug)]
pub enum Verdict {
    Yes,
    No,
}

/// Why a call on a book is refused: the first case that holds. `book_refusal` gives its number and values.
#[derive(Clone, Copy, PartialEq, Eq, Debug)]
pub enum BookFault {
    /// 11, 12 or 13: the book is shut, since its table is not admitted.
    NotAdmitted(AdmissionFault),
    /// 21: a row number is not below the count of rows.
    NoRow(RowFault),
    /// 22: a relation, or a buffer for one, has not the length of n² bits in 64-bit numbers, rounded up.
    RelationLength,
    /// 23: a relation has a bit that is no pair's.
    BitOutside,
    /// 24: the lowest pair of a relation, as a bit, that breaks the rules within it.
    RuleBroken { p: u8, q: u8 },
    /// 25: the pair is not held as no. 26: there are fewer nodes than one a row and one a pair of rows.
    NotShown(ShowFault),
    /// 21, 30, 31, 32 or 33: the order cannot be fitted to the row.
    NotFitted(FitFault),
}

impl From<AdmissionFault> for BookFault {
    ghost from_gives = { λ e f. f ≡ NotAdmitted e };

    fn from(e: AdmissionFault) -> BookFault {
        BookFault::NotAdmitted(e)
    }
}

impl From<RowFault> for BookFault {
    ghost from_gives = { λ e f. f ≡ NoRow e };

    fn from(e: RowFault) -> BookFault {
        BookFault::NoRow(e)
    }
}

impl From<ShowFault> for BookFault {
    ghost from_gives = { λ e f. f ≡ NotShown e };

    fn from(e: ShowFault) -> BookFault {
        BookFault::NotShown(e)
    }
}

impl From<FitFault> for BookFault {
    ghost from_gives = { λ e f. f ≡ NotFitted e };

    fn from(e: FitFault) -> BookFault {
        BookFault::NotFitted(e)
    }
}

impl Refused for BookFault {
    ghost refusal = { book_refusal };

    fn number(&self) -> u8 {
        match self {
            BookFault::NotAdmitted(fault) => fault.number(),
            BookFault::NoRow(fault) => fault.number(),
            BookFault::RelationLength => 22,
            BookFault::BitOutside => 23,
            BookFault::RuleBroken { .. } => 24,
            BookFault::NotShown(fault) => fault.number(),
            BookFault::NotFitted(fault) => fault.number(),
        }
    }
}
