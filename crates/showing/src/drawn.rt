// The rows and the pairs of rows that have a node already.
ghost use Rattle.showing.specs.Drawing.{Asked};
ghost use Rattle.verdicts.specs.Tables.{rows_in, related_in};

use documents::nodes::MAX_NODES;
use verdicts::prepared::Prepared;

// What is asked for: an order that tells a pair of rows of a table apart. `leaned` has the pairs that it leans on, and `below` those of them that are below.
#[derive(Clone, Copy)]
pub(crate) struct Question<'a> {
    pub prepared: &'a Prepared,
    pub leaned: &'a [u64],
    pub below: &'a [u64],
    ghost asked: { ∥ Asked (rows_in prepared.now) (related_in prepared.now leaned.now) (related_in prepared.now below.now) ∥₁ },
}

// So many nodes are used. A row and a pair of rows that have a node have its number: row r at place r, and the pair of a and b at n + a n + b.
// The nodes themselves are the caller's slice, which is handed on beside it.
#[derive(Drop)]
pub(crate) struct Drawn {
    used: usize,
    numbers: [Option<u16>; MAX_NODES],
}

pub mod drafts;
pub mod steps;
