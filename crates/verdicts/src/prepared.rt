// An admitted table, with what is worked out from it once, so that its rules are decided fast.
ghost use Rattle.forms.specs.Buffers.{rows_of};
ghost use Rattle.verdicts.specs.Ready.{Ready};

use forms::MAX_ROWS;
use forms::buffer::RowBuffer;
use relation::offering::CELL_WORDS;

/// An admitted table: its rows, and for each row the void rows, the channel rows and the inhabited element rows that it offers, and the labels of the latter.
// Each sort has one array of the sets of all rows, since channel rows and element rows are gone through by the same functions, which are handed the sets of a sort.
#[derive(Drop)]
pub struct Prepared {
    table: RowBuffer,
    voids: [u64; CELL_WORDS],
    channels: [u64; CELL_WORDS],
    elements: [u64; CELL_WORDS],
    labels: [u64; MAX_ROWS],
    ghost ready: { ∥ Ready (rows_of table) voids channels elements labels ∥₁ },
}

pub mod deciding;
pub mod keeping;
pub mod leaning;
pub mod naming;
pub mod places;
pub mod reading;
pub mod sorting;
