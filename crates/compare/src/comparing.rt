// The layers of a comparison, one after another.
ghost use Rattle.std.specs.Prelude.{◌≡◌, ◌+◌, ◌<◌, ◌≤◌, ◌⊎◌, length, MatchResult};
ghost use Rattle.forms.specs.Limits.{max_rows};
ghost use Rattle.forms.specs.Refusals.Outcome.{refuses, gives};
ghost use Rattle.texts.specs.Calls.{text_rows};
ghost use Rattle.texts.specs.Faults.{text_refusal};
ghost use Rattle.texts.specs.RowText.{Judged};
ghost use Rattle.relation.specs.Admission.{Admitted, Finds};
ghost use Rattle.relation.specs.Faults.{admission_refusal};
ghost use Rattle.verdicts.specs.Pairs.{InTable};
ghost use Rattle.compare.specs.Comparing.{Found, Refused, Settled, Tells};
ghost use Rattle.compare.specs.Layers.{HeldNo, OutsideOf};
ghost use Rattle.compare.specs.Questions.{asked};

use super::facing::Facing;
use super::faults::{CompareFault, JoinFault, Side, SideFault};
use super::questions::Question;
use book::Book;
use book::types::Verdict;
use documents::nodes::{MAX_NODES, Node};
use documents::writer::write_document;
use forms::makes::Joined;
use forms::{FormSource, MAX_ROWS};
use relation::AdmissionFault;
use relation::admission::admit;
use relation::analysis::Analysis;
use texts::{RowText, TextFault};
use verdicts::faults::RowFault;

/// What is found of two rows.
// `Option<u16>` would do too, but there a reader takes `None` for a no.
#[derive(Clone, Copy, PartialEq, Eq, Debug)]
pub enum Finding {
    /// every order that fits the first fits the second
    Yes,
    /// an order fits the first and not the second; its text has this length, in bytes
    No { length: u16 },
}

// The number that says what is found, or which fault.
pub(crate) fn number(found: Result<Finding, CompareFault>) -> u64
    ensures { Tells result found }
{
    match found {
        Ok(Finding::Yes) => 0,
        Ok(Finding::No { length }) => 1 + 65536 * length as u64,
        Err(fault) => fault.packed(),
    }
}

// Layers 1 and 2: the rows that the text of a side spells.
fn read(side: Side, text: &[u8]) -> Result<RowText, SideFault<TextFault>>
    ensures { MatchResult result (λ t. Judged text.now (gives (text_rows t))) (λ e. (e.side ≡ side) × Judged text.now (refuses (text_refusal e.fault))) }
{
    RowText::read(text).map_err(|fault| SideFault { side, fault })
}

// Layers 3 and 4: whether the table of a side is admitted.
fn admitted(side: Side, table: &RowText) -> Result<Analysis, SideFault<AdmissionFault>>
    ensures { MatchResult result (λ _. Admitted (text_rows table.now)) (λ e. (e.side ≡ side) × Finds (text_rows table.now) (admission_refusal e.fault)) }
{
    admit(table).map_err(|fault| SideFault { side, fault })
}

// Layer 5: two sources side by side.
fn join<A: FormSource + Drop, B: FormSource + Drop>(
    first: A,
    second: B,
) -> Result<Joined<A, B>, JoinFault>
    ensures { MatchResult result
        (λ s. (s.first ≡ first) × (s.second ≡ second) × (length (A.FormSource.rows first) + length (B.FormSource.rows second) ≤ max_rows))
        (λ e. (e ≡ JoinFault.TooManyRows) × (max_rows < length (A.FormSource.rows first) + length (B.FormSource.rows second))) }
{
    if first.count() + second.count() <= MAX_ROWS {
        Ok(Joined { first, second })
    } else {
        Err(JoinFault::TooManyRows)
    }
}

// Layer 6: a row of the table of a side.
fn row_of<S: FormSource>(side: Side, source: &S, row: u64) -> Result<u8, SideFault<RowFault>>
    ensures { MatchResult result
        (λ found. (row < length (S.FormSource.rows source.now)) × (found ≡ row))
        (λ e. (e.side ≡ side) × (e.fault ≡ RowFault.Outside) × (length (S.FormSource.rows source.now) ≤ row)) }
{
    if row < source.count() as u64 {
        Ok(row as u8)
    } else {
        Err(SideFault {
            side,
            fault: RowFault::Outside,
        })
    }
}

// Layer 6: a row of the first and a row of the second, as rows of the joined table.
fn pair_of<A: FormSource, B: FormSource>(
    joined: &Joined<A, B>,
    pair: (u64, u64),
) -> Result<(u8, u8), SideFault<RowFault>>
    ensures { MatchResult result
        (λ found. (pair.0 < length (A.FormSource.rows joined.now.first)) × (pair.1 < length (B.FormSource.rows joined.now.second)) × (found.0 ≡ pair.0) × (found.1 ≡ length (A.FormSource.rows joined.now.first) + pair.1))
        (λ e. (e.fault ≡ RowFault.Outside) × OutsideOf (length (A.FormSource.rows joined.now.first)) (length (B.FormSource.rows joined.now.second)) pair.0 pair.1 e.side) }
{
    let own = joined.first.count();
    let p = row_of(Side::Ours, &joined.first, pair.0)?;
    let q = row_of(Side::Theirs, &joined.second, pair.1)?;
    Ok((p, own as u8 + q))
}

// Shows an order that fits the first row and not the second, of a pair that an open book holds as no, and writes it as
// text: the end of layer 6, and layer 7. The nodes are here, since a yes needs none of their stack.
fn write_order<S: FormSource>(
    book: &Book<S>,
    pair: (u8, u8),
    buffer: &mut [u8],
) -> Result<Finding, CompareFault>
    requires { HeldNo (S.FormSource.rows book.now.source) book.now.pages pair.0 pair.1 }
    ensures { Found (S.FormSource.rows book.now.source) pair.0 pair.1 buffer.old buffer.new result }
{
    let mut nodes = [Node::Void; MAX_NODES];
    let count = book.show(pair, &mut nodes)?;
    let length = write_document(&nodes[..count], count - 1, buffer)?;
    Ok(Finding::No {
        length: length as u16,
    })
}

// What is found of two rows of an admitted table.
fn ask<S: FormSource + Drop>(
    source: S,
    pair: (u8, u8),
    buffer: &mut [u8],
) -> Result<Finding, CompareFault>
    requires admitted { Admitted (S.FormSource.rows source) }
    requires rows { InTable (S.FormSource.rows source) pair.0 pair.1 }
    ensures { Found (S.FormSource.rows source) pair.0 pair.1 buffer.old buffer.new result }
{
    let mut book = Book::new(source);
    match book.ask(pair)? {
        (Verdict::Yes, _) => Ok(Finding::Yes),
        (Verdict::No, _) => write_order(&book, pair, buffer),
    }
}

// What is found of a question. Each layer's own fault passes up by `?`, in the order of the layers: callers rely on
// being told the first fault, and a layer that is added is a line here and a `From` in `faults`.
pub(crate) fn compared(question: Question, buffer: &mut [u8]) -> Result<Finding, CompareFault>
    ensures { Refused (asked question.entry) buffer.old buffer.new result ⊎ Settled (asked question.entry) buffer.old buffer.new result }
{
    let ours = read(Side::Ours, question.ours)?;
    let theirs = read(Side::Theirs, question.theirs)?;
    admitted(Side::Ours, &ours)?;
    admitted(Side::Theirs, &theirs)?;
    let joined = join(ours, Facing::of(question.t, theirs))?;
    let pair = pair_of(&joined, (question.p, question.q))?;
    ask(joined, pair, buffer)
}
