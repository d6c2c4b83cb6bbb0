// The pages of an open book: an admitted table and the pairs of its rows that are held.
ghost use Rattle.forms.specs.Buffers.{rows_of};
ghost use Rattle.book.specs.Keeping.{Kept};

use verdicts::prepared::Prepared;
use verdicts::prepared::deciding::PAIR_WORDS;

// The pairs held, those of them that are yes, and those of which all that they lean on is held. They are three sets side by side, since the functions of sets and verdicts take each as a slice of its own.
#[derive(Drop)]
pub struct Ledger {
    prepared: Prepared,
    held: [u64; PAIR_WORDS],
    yes: [u64; PAIR_WORDS],
    settled: [u64; PAIR_WORDS],
    ghost kept: { ∥ Kept (rows_of prepared.table) held yes settled ∥₁ },
}

pub mod marking;
pub mod offering;
pub mod settling;
pub mod telling;
pub mod witnessing;
