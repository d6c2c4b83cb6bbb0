// Verdicts from the literature on schemas with channels: tables as row text, and of pairs of rows whether the first is below the second and how many pairs that leans on that were not known.
use super::asking::ask_all;
use std::test::Fail;

const BOOLEANS_AND_CHANNELS: &[u8] =
    b"V,,,\nN,,,\nU,,3,4\nE,0000000000000400,0,0\nE,0000000000000800,0,0\nE,0000000000000040,2,6\nU,,0,5\nE,0000000000000080,2,8\nE,0000000000000100,10,9\nE,0000000000000200,10,0\nU,,0,7\nU,,6,10\nC,o,2,\nC,b,2,\nC,o,15,\nU,,12,14\nC,o,1,\nC,i,20,\nU,,16,17\nE,ffffffffffffffff,20,20\nU,,21,18\nU,,0,19\nE,0000000000000002,0,0\nC,o,22,\nC,o,20,\nC,i,1,\nC,b,20,\nC,b,1,\nC,i,6,\nC,i,10,\nU,,28,29\nC,i,11,\nC,o,6,\nC,o,10,\nU,,32,33\nC,o,11,\nE,0000000000000002,36,0\nE,ffffffffffffffff,0,0\nE,fffffffffffffffd,0,0\nU,,22,38\nU,,0,40\nU,,0,41\nE,0000000000000002,36,0\nU,,22,42\nC,b,37,\nC,b,39,\nC,b,6,\nC,b,11,\n";

const CHANNEL_ASKS: [((u8, u8), bool, usize); 35] = [
    ((13, 12), true, 3),
    ((15, 12), false, 4),
    ((12, 13), false, 1),
    ((15, 13), false, 1),
    ((36, 1), true, 1),
    ((23, 16), true, 2),
    ((23, 24), false, 3),
    ((30, 31), true, 9),
    ((31, 30), false, 9),
    ((37, 39), true, 2),
    ((40, 41), true, 1),
    ((12, 18), true, 2),
    ((17, 18), true, 3),
    ((47, 18), true, 9),
    ((26, 12), true, 3),
    ((26, 24), true, 3),
    ((27, 28), true, 2),
    ((27, 17), true, 2),
    ((17, 25), false, 2),
    ((25, 17), true, 2),
    ((6, 11), true, 4),
    ((35, 32), true, 5),
    ((28, 31), true, 5),
    ((11, 6), false, 4),
    ((32, 35), false, 5),
    ((31, 28), false, 5),
    ((44, 45), true, 4),
    ((45, 44), true, 4),
    ((46, 47), false, 6),
    ((47, 46), false, 6),
    ((35, 34), true, 9),
    ((34, 35), false, 9),
    ((12, 15), true, 4),
    ((43, 22), true, 2),
    ((22, 43), true, 2),
];

#[test]
fn booleans_and_channels(rt: HostRuntime) -> Result<(), Fail> {
    ask_all(&rt, BOOLEANS_AND_CHANNELS, false, &CHANNEL_ASKS)
}

const ASSUMED_PAIR: &[u8] = b"C,b,0,\nC,i,2,\nC,b,1,\nU,,2,1\n";

#[test]
fn assumed_pair(rt: HostRuntime) -> Result<(), Fail> {
    ask_all(&rt, ASSUMED_PAIR, true, &[((0, 3), false, 4)])
}

const INNER_PAIR: &[u8] = b"C,i,1,\nC,b,0,\nC,b,2,\n";

#[test]
fn inner_pair(rt: HostRuntime) -> Result<(), Fail> {
    ask_all(
        &rt,
        INNER_PAIR,
        true,
        &[((2, 1), false, 3), ((2, 0), false, 0)],
    )
}

const EMPTY_ELEMENT: &[u8] = b"V,,,\nE,0000000000000002,2,0\nU,,3,0\nE,0000000000000002,1,0\n";

#[test]
fn empty_element(rt: HostRuntime) -> Result<(), Fail> {
    ask_all(
        &rt,
        EMPTY_ELEMENT,
        true,
        &[((1, 2), false, 3), ((3, 1), false, 1)],
    )
}

const ENDLESS_UNION: &[u8] = b"V,,,\nU,,2,0\nE,0000000000000002,1,0\n";

#[test]
fn endless_union(rt: HostRuntime) -> Result<(), Fail> {
    ask_all(&rt, ENDLESS_UNION, true, &[((1, 0), false, 1)])
}

const OFFERED_SIDE: &[u8] = b"V,,,\nE,0000000000000002,0,0\nU,,1,0\n";

#[test]
fn offered_side(rt: HostRuntime) -> Result<(), Fail> {
    ask_all(&rt, OFFERED_SIDE, true, &[((1, 2), true, 2)])
}

const MISSING_LABEL: &[u8] = b"V,,,\nE,0000000000000006,0,0\nE,0000000000000002,3,0\nU,,0,1\n";

#[test]
fn missing_label(rt: HostRuntime) -> Result<(), Fail> {
    ask_all(&rt, MISSING_LABEL, true, &[((1, 2), false, 3)])
}
