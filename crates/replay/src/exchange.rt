// Calls on a book with their buffers, and answers with what the buffers hold then.
use book::types::{BookFault, Verdict};
use documents::nodes::Node;

/// A call on a book, with what its buffers hold before it.
#[derive(Drop)]
pub enum Call {
    // is the first row below the second?
    Ask((u8, u8)),
    // a relation
    Offer(Vec<u64>),
    LookUp((u8, u8)),
    Held,
    // a buffer for the pairs held as yes
    HandOut(Vec<u64>),
    // a pair, and a buffer for an order that fits the first row and not the second
    Show((u8, u8), Vec<Node>),
    Fit {
        nodes: Vec<Node>,
        root: usize,
        row: u8,
        marks: Vec<u64>,
    },
    Clear,
}

/// An answer, with what the call's buffer holds after it.
#[derive(PartialEq, Eq, Debug, Drop)]
pub enum Answer {
    Asked(Result<(Verdict, usize), BookFault>),
    Offered(Result<usize, BookFault>),
    LookedUp(Result<Option<Verdict>, BookFault>),
    Counted(Result<usize, BookFault>),
    HandedOut(Result<usize, BookFault>, Vec<u64>),
    Shown(Result<usize, BookFault>, Vec<Node>),
    Fitted(Result<(bool, usize), BookFault>, Vec<u64>),
    Cleared(Result<(), BookFault>),
}
