// The calls on a book. On a shut one every call is refused as admission refuses the table. A refused call changes neither the book nor a buffer.
ghost use Rattle.std.specs.Prelude.{◌≡◌, ℕ, false, Ok, Err, MatchResult};
ghost use Rattle.std.specs.Borrow.{sem};
ghost use Rattle.book.specs.Books.{Met};
ghost use Rattle.book.specs.Calls.Answer.{asked, offered, looked_up, counted, handed_out, shown, fitted, cleared};
ghost use Rattle.book.specs.Calls.Call.{ask, offer, look_up, held as count_held, hands_out, show, fit, clear as wipe};
ghost use Rattle.book.specs.Faults.{outcome};
ghost use Rattle.book.specs.Ledgers.{holds_in};
ghost use Rattle.book.specs.Lending.{LendsLedger};
ghost use Rattle.book.specs.Runs.{ChainsKeepTheLaw};
ghost use Rattle.book.specs.Worked.{WorkedOnBooks};

use super::Book;
use super::ledger::Ledger;
use super::types::{BookFault, Verdict};
use documents::nodes::Node;
use fitting::order::Order;
use forms::FormSource;
use relation::AdmissionFault;
use verdicts::prepared::Prepared;

// The ledger of an open book, lent to be written to. It is lent out of the pages and not out of the book, so that each call that writes shows anew that the pages are over the source.
// The borrow checker does not cover `map_err` after `as_mut`, since of the two `&mut` only one outlives the call.
fn open_mut(pages: &mut Result<Ledger, AdmissionFault>) -> Result<&mut Ledger, AdmissionFault>
    ensures* lends { sem 𝓛 (LendsLedger pages.entry result) }
    ensures value { MatchResult result (λ l. pages.old ≡ Ok l.now) (λ e. pages.old ≡ Err e) }
{
    match pages {
        Ok(ledger) => Ok(ledger),
        Err(fault) => Err(*fault),
    }
}

impl<S: FormSource> Book<S> {
    /// A book over a source: open with no pair held if admission finds no fault in its rows, else shut. Making it never refuses.
    ///
    /// `WorkedOnBooks` says what a book over the worked table answers when it holds no pair. By `ChainsKeepTheLaw` any calls in a row on a book, from its making on, keep the law over runs (`Law`).
    pub fn new(source: S) -> Book<S>
        ensures source { result.source ≡ source }
        ensures empty { (a b : ℕ) → holds_in result.pages a b ≡ false }
        ensures worked { WorkedOnBooks }
        ensures law { ChainsKeepTheLaw }
    {
        let pages = Prepared::of(&source).map(Ledger::open);
        Book { source, pages }
    }

    // The ledger of an open book.
    pub(crate) fn open(&self) -> Result<&Ledger, AdmissionFault>
        ensures { MatchResult result (λ l. self.now.pages ≡ Ok l.now) (λ e. self.now.pages ≡ Err e) }
    {
        self.pages.as_ref().map_err(|fault| *fault)
    }

    /// Whether every order that fits the first row of a pair fits the second, and how many pairs are new. It adds what the pair leans on. Refused: 21.
    ///
    /// Pairs of rows are tuples here and below, and the answer is a tuple of the verdict and its count, as callers rely on: the two are one answer, and neither is told without the other.
    pub fn ask(&mut self, pair: (u8, u8)) -> Result<(Verdict, usize), BookFault>
        ensures source { self.new.source ≡ self.old.source }
        ensures meets { Met (S.FormSource.rows self.old.source) self.old.pages (ask pair.0 pair.1) (asked (outcome result)) self.new.pages }
    {
        open_mut(&mut self.pages)?.ask(pair)
    }

    /// Holds the pairs of a relation as yes, if they keep the rules within it, and answers how many are new. Of n rows the pair (p, q) is bit p × n + q, and bit k is bit k mod 64 of number k div 64. Refused: 22, 23, 24.
    pub fn offer(&mut self, relation: &[u64]) -> Result<usize, BookFault>
        ensures source { self.new.source ≡ self.old.source }
        ensures meets { Met (S.FormSource.rows self.old.source) self.old.pages (offer relation.now) (offered (outcome result)) self.new.pages }
    {
        open_mut(&mut self.pages)?.offer(relation)
    }

    /// The verdict on a pair, if it is held. Refused: 21.
    pub fn look_up(&self, pair: (u8, u8)) -> Result<Option<Verdict>, BookFault>
        ensures { Met (S.FormSource.rows self.now.source) self.now.pages (look_up pair.0 pair.1) (looked_up (outcome result)) self.now.pages }
    {
        self.open()?.look_up(pair)
    }

    /// How many pairs are held.
    pub fn held(&self) -> Result<usize, BookFault>
        ensures { Met (S.FormSource.rows self.now.source) self.now.pages (count_held) (counted (outcome result)) self.now.pages }
    {
        Ok(self.open()?.count())
    }

    /// Writes the pairs held as yes into a buffer for a relation, and answers how many they are. Every book over equal rows takes what was written when it is offered. Refused, with the buffer as it was: 22.
    pub fn hand_out(&self, buffer: &mut [u64]) -> Result<usize, BookFault>
        ensures { Met (S.FormSource.rows self.now.source) self.now.pages (hands_out buffer.old) (handed_out (outcome result) buffer.new) self.now.pages }
    {
        self.open()?.hand_out(buffer)
    }

    /// Shows why a pair is held as no: writes an order that fits the first row and not the second, and answers how many nodes it has.
    ///
    /// It fills the caller's slice in place, since callers rely on the order lying at its start: the first nodes, as many as are answered, are a sound table whose last is the root. The rest is unchanged. Refused, with the slice as it was: 21, 25, 26.
    pub fn show(&self, pair: (u8, u8), nodes: &mut [Node]) -> Result<usize, BookFault>
        ensures { Met (S.FormSource.rows self.now.source) self.now.pages (show pair.0 pair.1 nodes.old) (shown (outcome result) nodes.new) self.now.pages }
    {
        self.open()?.show(pair, nodes)
    }

    /// Settles, as asks would, each pair of a referenced row and a channel row, marks for each node the rows that it fits (bit r of mark i: node i fits row r), and answers whether the root fits the row and how many pairs are new. Refused, with the marks as they were: 21, 30, 31, 32, 33.
    pub fn fit(
        &mut self,
        nodes: &[Node],
        root: usize,
        row: u8,
        marks: &mut [u64],
    ) -> Result<(bool, usize), BookFault>
        ensures source { self.new.source ≡ self.old.source }
        ensures meets { Met (S.FormSource.rows self.old.source) self.old.pages (fit nodes.now root row marks.old) (fitted (outcome result) marks.new) self.new.pages }
    {
        open_mut(&mut self.pages)?.fit(&Order { nodes, root }, row, marks)
    }

    /// Holds no pair any more.
    pub fn clear(&mut self) -> Result<(), BookFault>
        ensures source { self.new.source ≡ self.old.source }
        ensures meets { Met (S.FormSource.rows self.old.source) self.old.pages (wipe) (cleared (outcome result)) self.new.pages }
    {
        open_mut(&mut self.pages)?.clear();
        Ok(())
    }
}
