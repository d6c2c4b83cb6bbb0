// Why no order is shown.
ghost use Rattle.std.specs.Prelude.{◌≡◌};
ghost use Rattle.showing.specs.Faults.{show_refusal};
ghost use Rattle.showing.specs.declared.faults.ShowFault.TheVariants.{NoRow};

use forms::refusals::Refused;
use std::error::Error;
use std::fmt;
use verdicts::faults::RowFault;

/// Why no order is shown for a pair of rows: the first case that holds. `show_refusal` gives its number and values.
#[derive(Clone, Copy, PartialEq, Eq, Debug)]
pub enum ShowFault {
    /// 21: a row number is not below the count of rows.
    NoRow(RowFault),
    /// 25: the first row is below the second, so every order that fits the one fits the other.
    NotNo,
    /// 26: there are fewer nodes than one a row and one a pair of rows.
    FewNodes,
}

impl From<RowFault> for ShowFault {
    ghost from_gives = { λ e f. f ≡ NoRow e };

    fn from(e: RowFault) -> ShowFault {
        ShowFault::NoRow(e)
    }
}

impl Refused for ShowFault {
    ghost refusal = { show_refusal };

    fn number(&self) -> u8 {
        match self {
            ShowFault::NoRow(fault) => fault.number(),
            ShowFault::NotNo => 25,
            ShowFault::FewNodes => 26,
        }
    }
}

impl fmt::Display for ShowFault {
    fn fmt<W: fmt::Write>(&self, f: &mut fmt::Formatter<W>) -> fmt::Result {
        let number = self.number();
        match self {
            ShowFault::NoRow(fault) => write!(f, "{fault}"),
            ShowFault::NotNo => write!(
                f,
                "refused ({number}): the first row is below the second, so there is nothing to show"
            ),
            ShowFault::FewNodes => write!(
                f,
                "refused ({number}): there are fewer nodes than one a row and one a pair of rows"
            ),
        }
    }
}

impl Error for ShowFault {}
