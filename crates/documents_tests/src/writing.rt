// Writing documents as text.
use documents::faults::{ReadFault, WriteFault};
use documents::nodes::{MAX_DOCUMENT, MAX_NODES, Node};
use documents::reader::read_document;
use documents::writer::write_document;
use forms::refusals::Refused;
use std::test::Fail;

const fn element(label: u8, inside: u16, following: u16) -> Node {
    Node::Element {
        label,
        inside,
        following,
    }
}

#[test]
fn parts_of_a_table(rt: HostRuntime) {
    let nodes = [
        Node::Void,
        element(2, 0, 0),
        Node::Reference(12),
        element(63, 1, 2),
    ];
    let mut buffer = [b'.'; 12];
    assert_eq!(rt; write_document(&nodes, 3, &mut buffer), Ok(11));
    assert!(rt;
        &buffer == b"63[2[]],@12.",
        "the text, and the rest as it was"
    );
    assert_eq!(rt; write_document(&nodes, 0, &mut buffer), Ok(0));
    assert_eq!(rt; write_document(&nodes, 2, &mut buffer), Ok(3));
    assert!(rt; &buffer == b"@122[]],@12.");
}

#[test]
fn room(rt: HostRuntime) {
    let nodes = [Node::Void, element(1, 0, 0)];
    let mut exact = [b'.'; 3];
    assert_eq!(rt; write_document(&nodes, 1, &mut exact), Ok(3));
    let mut short = [b'.'; 2];
    assert_eq!(rt;
        write_document(&nodes, 1, &mut short),
        Err(WriteFault::TooLong)
    );
    assert!(rt; &short == b"..");
}

#[test]
fn unsound_nodes(rt: HostRuntime) {
    let mut buffer = [b'.'; 8];
    assert_eq!(rt;
        write_document(&[element(1, 0, 0)], 0, &mut buffer),
        Err(WriteFault::Unsound { node: 0 })
    );
    assert_eq!(rt;
        write_document(
            &[
                Node::Void,
                Node::Void,
                element(64, 0, 0),
                Node::Reference(64),
            ],
            0,
            &mut buffer,
        ),
        Err(WriteFault::Unsound { node: 2 })
    );
    assert_eq!(rt;
        write_document(&[Node::Void, Node::Reference(64)], 0, &mut buffer),
        Err(WriteFault::Unsound { node: 1 })
    );
    assert_eq!(rt;
        write_document(&[Node::Void, element(1, 0, 1)], 1, &mut buffer),
        Err(WriteFault::Unsound { node: 1 })
    );
    assert_eq!(rt;
        write_document(&[Node::Void, element(1, 1, 0)], 1, &mut buffer),
        Err(WriteFault::Unsound { node: 1 })
    );
    assert_eq!(rt;
        write_document(&[Node::Void], 1, &mut buffer),
        Err(WriteFault::RootOutside)
    );
    assert_eq!(rt;
        write_document(&[], 0, &mut buffer),
        Err(WriteFault::RootOutside)
    );
    assert!(rt; &buffer == b"........", "no refusal writes");
}

#[test]
fn many_nodes(rt: HostRuntime) {
    let mut buffer = [b'.'; 4];
    assert_eq!(rt;
        write_document(&[Node::Void; MAX_NODES], MAX_NODES - 1, &mut buffer),
        Ok(0)
    );
    assert_eq!(rt;
        write_document(&[Node::Void; MAX_NODES + 1], 0, &mut buffer),
        Err(WriteFault::ManyNodes)
    );
}

// As many nodes as a table has: void, and each further one made of the number of the one before.
fn chain<F: Fn(u16) -> Node>(after: F) -> [Node; MAX_NODES]
    requires { F.IsAlwaysCallable after }
{
    let mut nodes = [Node::Void; MAX_NODES];
    for (before, node) in (0u16..).zip(nodes.iter_mut().skip(1)) {
        *node = after(before);
    }
    nodes
}

// Each node uses the one before twice, so that the text of the last would have some 2^4159 bytes.
#[test]
fn a_text_longer_than_the_universe(rt: HostRuntime) -> Result<(), Fail> {
    let nodes = chain(|before| element(1, before, before));
    let mut buffer = [b'.'; MAX_DOCUMENT];
    assert_eq!(rt;
        write_document(&nodes, MAX_NODES - 1, &mut buffer),
        Err(WriteFault::TooLong)
    );
    assert_eq!(rt;
        write_document(&nodes, 3, &mut buffer),
        Ok(24),
        "shared nodes are written again"
    );
    assert!(rt; &buffer[0..25] == b"1[1[1[]],1[]],1[1[]],1[].".as_slice());
    Ok(())
}

// 4,160 nodes in a row, and 4,160 nodes in one another, which is deeper than reading goes.
#[test]
fn long_and_deep(rt: HostRuntime) -> Result<(), Fail> {
    let row = chain(|before| element(1, 0, before));
    let mut buffer = [b'.'; MAX_DOCUMENT];
    assert_eq!(rt; write_document(&row, MAX_NODES - 1, &mut buffer), Ok(16635));
    let mut back = [Node::Void; MAX_NODES];
    assert_eq!(rt; read_document(&buffer[0..16635], &mut back), Ok(MAX_NODES));
    assert!(rt; back == row);
    let deep = chain(|before| element(1, before, 0));
    assert_eq!(rt;
        write_document(&deep, MAX_NODES - 1, &mut buffer),
        Ok(12477)
    );
    assert_eq!(rt;
        read_document(&buffer[0..12477], &mut back),
        Err(ReadFault::TooDeep { place: 129 })
    );
    Ok(())
}

#[test]
fn what_is_read_is_written_back(rt: HostRuntime) -> Result<(), Fail> {
    let text = b"1[2[3[],4[5[@0]]]],10[],63[62[]],@63";
    let mut nodes = [Node::Void; 16];
    let count = read_document(text, &mut nodes)?;
    assert!(rt; count >= 1 && count <= 16);
    let mut buffer = [b'.'; 64];
    assert_eq!(rt;
        write_document(&nodes[0..count], count - 1, &mut buffer),
        Ok(text.len())
    );
    assert!(rt; &buffer[0..text.len()] == text.as_slice());
    Ok(())
}

#[test]
fn numbers(rt: HostRuntime) {
    assert_eq!(rt; WriteFault::ManyNodes.number(), 30);
    assert_eq!(rt; WriteFault::Unsound { node: 7 }.number(), 31);
    assert_eq!(rt; WriteFault::RootOutside.number(), 32);
    assert_eq!(rt; WriteFault::TooLong.number(), 45);
}

// What each fault says, with its number.
#[test]
fn words(rt: HostRuntime) -> Result<(), Fail> {
    let cases = [
        (
            WriteFault::ManyNodes,
            "the order cannot be written (30): there are more than 4160 nodes",
        ),
        (
            WriteFault::Unsound { node: 4159 },
            "the order cannot be written (31): node 4159 is not sound: an element has a label up to 63 and points at two lower nodes, and a reference is to a row up to 63",
        ),
        (
            WriteFault::RootOutside,
            "the order cannot be written (32): the root is not one of the nodes",
        ),
        (
            WriteFault::TooLong,
            "the order cannot be written (45): the text is longer than the buffer, or than 32,768 bytes",
        ),
    ];
    for (fault, words) in &cases {
        let told = format!(in rt.alloc(); "{fault}")?;
        assert_eq!(rt; told.as_str(), *words);
    }
    Ok(())
}
