// A worked table: void, elements, channels, an element that follows itself, nothing, a list, and an element around two others.
use documents::nodes::{MAX_NODES, Node};
use documents::writer::write_document;
use showing::faults::ShowFault;
use showing::show;
use std::process::Abort;
use std::test::Fail;
use texts::RowText;
use verdicts::faults::RowFault;
use verdicts::prepared::Prepared;

const TABLE: &[u8] =
    b"V,,,\nE,0000000000000002,0,0\nE,0000000000000006,0,0\nC,o,1,\nC,o,2,\nC,b,1,\nE,0000000000000002,0,6\nN,,,\nU,,0,9\nE,0000000000000002,0,8\nE,0000000000000008,2,3\nE,0000000000000008,1,3\n";

// Whether the last of the first k nodes is written as that text.
fn check_text(rt: &impl Abort, nodes: &[Node], k: usize, text: &[u8]) -> Result<(), Fail> {
    if k == 0 || k > nodes.len() {
        return Err(Fail::new("there are no such nodes"));
    }
    let mut buffer = [0; 64];
    let length = write_document(&nodes[..k], k - 1, &mut buffer)?;
    if length > 64 {
        return Err(Fail::new("the text is too long"));
    }
    assert_eq!(rt; &buffer[..length], text);
    Ok(())
}

fn check_shown(rt: &impl Abort, table: &Prepared, pair: (u8, u8), text: &[u8]) -> Result<(), Fail> {
    let mut nodes = [Node::Void; MAX_NODES];
    let k = show(table, pair, &mut nodes)?;
    check_text(rt, &nodes, k, text)
}

#[test]
fn shown(rt: HostRuntime) -> Result<(), Fail> {
    let table = Prepared::of(&RowText::new(TABLE))?;
    check_shown(&rt, &table, (2, 1), b"2[]")?;
    check_shown(&rt, &table, (8, 9), b"")?;
    check_shown(&rt, &table, (3, 5), b"@3")?;
    check_shown(&rt, &table, (9, 1), b"1[],1[]")?;
    check_shown(&rt, &table, (10, 11), b"3[2[]],@3")
}

// The table has 12 rows, so 156 nodes are room enough. The earlier fault is told.
#[test]
fn not_shown(rt: HostRuntime) -> Result<(), Fail> {
    let table = Prepared::of(&RowText::new(TABLE))?;
    let mut few = [Node::Void; 155];
    let mut enough = [Node::Void; 156];
    let no_row = ShowFault::NoRow(RowFault::Outside);
    assert_eq!(rt; show(&table, (0, 12), &mut few), Err(no_row));
    assert_eq!(rt; show(&table, (12, 0), &mut enough), Err(no_row));
    assert_eq!(rt; show(&table, (1, 2), &mut few), Err(ShowFault::NotNo));
    assert_eq!(rt; show(&table, (6, 7), &mut enough), Err(ShowFault::NotNo));
    assert_eq!(rt; show(&table, (2, 1), &mut few), Err(ShowFault::FewNodes));
    assert!(rt; show(&table, (2, 1), &mut enough).is_ok());
    Ok(())
}
