// One question about two tables of forms.
#![tactic(auto)]

ghost use Rattle.relation.specs.Sources.{JoinedIsAdmitted, TurnedIsAdmitted};
ghost use Rattle.compare.specs.Comparing.{Answers, Compares, ZeroIsYes};
ghost use Rattle.compare.specs.Questions.{asked};
ghost use Rattle.compare.specs.Reasons.{OneFault, FaultOrAnswer, OneMeaning};

pub mod comparing;
mod facing;
pub mod faults;
pub mod questions;
pub mod words;

use comparing::{Finding, compared, number};
use faults::CompareFault;
use questions::Question;

/// Answers a question, or tells its first fault.
///
/// `Yes`: every order that fits row `p` of ours fits row `q` of theirs, in the one table of both. `No`: the buffer begins
/// with the text of an order that fits the one and not the other, of the length told, in the row numbers of that table.
/// An `Err` is the fault of the first layer that refuses: the texts, admission, joining, the rows, or the buffer's room
/// for the order's text. After a yes or an `Err` the buffer is as it was, and after a no what lies behind the text.
pub fn question(question: Question, buffer: &mut [u8]) -> Result<Finding, CompareFault>
    ensures answers { Answers (asked question.entry) buffer.old buffer.new result }
    ensures laws { (OneFault) × ((FaultOrAnswer) × ((OneMeaning) × ((JoinedIsAdmitted) × (TurnedIsAdmitted)))) }
{
    compared(question, buffer)
}

/// Answers a question by one number, for a program in another language.
///
/// 0 is yes; 1 + 65,536 × n is no, where the first n bytes of the buffer are the order's text; any other number is
/// code + 256 × layer + 65,536 × place of the first fault (`CompareFault::packed`). The buffer is as after `question`.
pub fn compare(asks: Question, buffer: &mut [u8]) -> u64
    ensures compares { Compares (asked asks.entry) buffer.old buffer.new result }
    ensures laws { (ZeroIsYes) × ((OneFault) × ((FaultOrAnswer) × ((OneMeaning) × ((JoinedIsAdmitted) × (TurnedIsAdmitted))))) }
{
    number(question(asks, buffer))
}
