// A worked table: void, elements, channels, an element that follows itself, nothing, and a list.
use book::Book;
use texts::RowText;

pub(crate) const TABLE: &[u8] =
    b"V,,,\nE,0000000000000002,0,0\nE,0000000000000006,0,0\nC,o,1,\nC,o,2,\nC,b,1,\nE,0000000000000002,0,6\nN,,,\nU,,0,9\nE,0000000000000002,0,8\n";

// That table with a row 10 that offers rows 1 and 2, which have label 1 in common.
pub(crate) const SHUT: &[u8] =
    b"V,,,\nE,0000000000000002,0,0\nE,0000000000000006,0,0\nC,o,1,\nC,o,2,\nC,b,1,\nE,0000000000000002,0,6\nN,,,\nU,,0,9\nE,0000000000000002,0,8\nU,,1,2\n";

// What a buffer holds before a call.
pub(crate) const PATTERN: u64 = 0x5a5a5a5a5a5a5a5a;

// The pairs (0, 0) and (1, 2) of ten rows.
pub(crate) const TWO_PAIRS: [u64; 2] = [0x1001, 0];

pub(crate) fn worked() -> Book<RowText> {
    Book::new(RowText::new(TABLE))
}
