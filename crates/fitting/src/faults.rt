// Why the nodes of a document are not fitted.
ghost use Rattle.std.specs.Prelude.{◌≡◌};
ghost use Rattle.fitting.specs.Faults.{fit_refusal};
ghost use Rattle.fitting.specs.declared.faults.FitFault.TheVariants.{NoRow};

use documents::nodes::MAX_NODES;
use forms::refusals::Refused;
use std::error::Error;
use std::fmt;
use verdicts::faults::RowFault;

/// Why the nodes of an order are not fitted: the first case that holds. `fit_refusal` gives its number and values.
#[derive(Clone, Copy, PartialEq, Eq, Debug)]
pub enum FitFault {
    /// 21: the row number is not below the count of rows.
    NoRow(RowFault),
    /// 30: there are more nodes than `MAX_NODES`.
    ManyNodes,
    /// 31: the lowest node that points at a node which is not lower, has a label past 63, or refers to a row that is no channel row.
    Unsound { node: u16 },
    /// 32: the root is not one of the nodes.
    RootOutside,
    /// 33: there are not as many words of marks as the nodes take, which is `ROW_WORDS` a node.
    MarksLength,
}

impl From<RowFault> for FitFault {
    ghost from_gives = { λ e f. f ≡ NoRow e };

    fn from(e: RowFault) -> FitFault {
        FitFault::NoRow(e)
    }
}

impl Refused for FitFault {
    ghost refusal = { fit_refusal };

    fn number(&self) -> u8 {
        match self {
            FitFault::NoRow(fault) => fault.number(),
            FitFault::ManyNodes => 30,
            FitFault::Unsound { .. } => 31,
            FitFault::RootOutside => 32,
            FitFault::MarksLength => 33,
        }
    }
}

impl fmt::Display for FitFault {
    fn fmt<W: fmt::Write>(&self, f: &mut fmt::Formatter<W>) -> fmt::Result {
        let number = self.number();
        match self {
            FitFault::NoRow(fault) => write!(f, "{fault}"),
            FitFault::ManyNodes => write!(
                f,
                "refused ({number}): there are more than {MAX_NODES} nodes"
            ),
            FitFault::Unsound { node } => write!(
                f,
                "refused ({number}): node {node} is not sound: an element has a label up to 63 and points at two lower nodes, and a reference is to a channel row"
            ),
            FitFault::RootOutside => write!(
                f,
                "refused ({number}): the root is not one of the nodes"
            ),
            FitFault::MarksLength => write!(
                f,
                "refused ({number}): the marks have another length than the nodes take, which is one number a node"
            ),
        }
    }
}

impl Error for FitFault {}
