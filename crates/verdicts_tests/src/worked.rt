// A worked table: void, elements, channels, an element that follows itself, nothing, and a list.
use super::asking::ask_all;
use std::test::Fail;

const TABLE: &[u8] =
    b"V,,,\nE,0000000000000002,0,0\nE,0000000000000006,0,0\nC,o,1,\nC,o,2,\nC,b,1,\nE,0000000000000002,0,6\nN,,,\nU,,0,9\nE,0000000000000002,0,8\n";

const ASKS: [((u8, u8), bool, usize); 9] = [
    ((1, 2), true, 2),
    ((2, 1), false, 2),
    ((4, 3), true, 3),
    ((3, 4), false, 3),
    ((5, 3), true, 3),
    ((3, 5), false, 1),
    ((6, 7), true, 1),
    ((8, 8), true, 2),
    ((8, 9), false, 3),
];

#[test]
fn worked_table(rt: HostRuntime) -> Result<(), Fail> {
    ask_all(&rt, TABLE, false, &ASKS)
}
