// A book of verdicts for one source of forms.
#![tactic(auto)]

ghost use Rattle.book.specs.Books.{Over};

pub mod calls;
pub mod ledger;
pub mod types;
pub mod words;

use forms::FormSource;
use ledger::Ledger;
use relation::AdmissionFault;

/// A source of forms, and the verdicts on pairs of its rows that are held: the book is open. Of a table that is not admitted it has the fault of admission: the book is shut.
///
/// It holds its source by value, whatever the make: callers nest sources freely and hand them over whole, and so nobody else can change the rows that the verdicts are about. Its ghost field says that they are about those rows.
#[derive(Drop)]
pub struct Book<S: FormSource> {
    source: S,
    pages: Result<Ledger, AdmissionFault>,
    ghost over: { ∥ Over (S.FormSource.rows source) pages ∥₁ },
}
