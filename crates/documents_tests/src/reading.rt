// Reading document text.
use documents::faults::ReadFault;
use documents::nodes::{MAX_NODES, Node};
use documents::reader::read_document;
use forms::refusals::Refused;
use std::alloc::{AllocError, Global};
use std::test::Fail;

fn read(text: &[u8]) -> Result<usize, ReadFault> {
    let mut nodes = [Node::Void; MAX_NODES];
    read_document(text, &mut nodes)
}

// A part so many times over, and then an end.
fn repeated(heap: Global, part: &[u8], times: usize, end: &[u8]) -> Result<Vec<u8>, AllocError> {
    let mut text = Vec::new(heap);
    for _ in 0..times {
        text.extend_from_slice(part)?;
    }
    text.extend_from_slice(end)?;
    Ok(text)
}

#[test]
fn two_elements(rt: HostRuntime) {
    let mut nodes = [Node::Reference(9); 4];
    assert_eq!(rt; read_document(b"1[],2[]", &mut nodes), Ok(3));
    assert_eq!(rt; nodes[0], Node::Void);
    assert_eq!(rt;
        nodes[1],
        Node::Element {
            label: 2,
            inside: 0,
            following: 0,
        }
    );
    assert_eq!(rt;
        nodes[2],
        Node::Element {
            label: 1,
            inside: 0,
            following: 1,
        }
    );
    assert_eq!(rt;
        nodes[3],
        Node::Reference(9),
        "the rest of the buffer stays"
    );
}

#[test]
fn the_empty_text_is_one_void_node(rt: HostRuntime) {
    let mut nodes = [Node::Reference(9); 2];
    assert_eq!(rt; read_document(b"", &mut nodes), Ok(1));
    assert_eq!(rt; nodes[0], Node::Void);
    assert_eq!(rt; nodes[1], Node::Reference(9));
}

#[test]
fn references_end_their_list(rt: HostRuntime) {
    let mut nodes = [Node::Void; 4];
    assert_eq!(rt; read_document(b"7[@63]", &mut nodes), Ok(3));
    assert_eq!(rt; nodes[1], Node::Reference(63));
    assert_eq!(rt;
        nodes[2],
        Node::Element {
            label: 7,
            inside: 1,
            following: 0,
        }
    );
    assert_eq!(rt; read(b"@5,1[]"), Err(ReadFault::Wrong { place: 2 }));
    assert_eq!(rt; read(b"@"), Err(ReadFault::Wrong { place: 1 }));
    assert_eq!(rt; read(b"@64"), Err(ReadFault::Wrong { place: 2 }));
    assert_eq!(rt; read(b"@007"), Err(ReadFault::Wrong { place: 2 }));
}

#[test]
fn wrong_places(rt: HostRuntime) {
    assert_eq!(rt; read(b"1[],"), Err(ReadFault::Wrong { place: 4 }));
    assert_eq!(rt; read(b"64[]"), Err(ReadFault::Wrong { place: 1 }));
    assert_eq!(rt; read(b"01[]"), Err(ReadFault::Wrong { place: 1 }));
    assert_eq!(rt; read(b"1"), Err(ReadFault::Wrong { place: 1 }));
    assert_eq!(rt; read(b"1[]]"), Err(ReadFault::Wrong { place: 3 }));
    assert_eq!(rt; read(b"1[,]"), Err(ReadFault::Wrong { place: 2 }));
    assert_eq!(rt; read(b"1[2[]"), Err(ReadFault::Wrong { place: 5 }));
    assert_eq!(rt; read(b"1[]2[]"), Err(ReadFault::Wrong { place: 3 }));
    assert_eq!(rt; read(b" 1[]"), Err(ReadFault::Wrong { place: 0 }));
    assert_eq!(rt; read(b"]"), Err(ReadFault::Wrong { place: 0 }));
}

#[test]
fn levels(rt: HostRuntime) -> Result<(), Fail> {
    let shut = repeated(rt.alloc(), b"]", 64, b"")?;
    let fine = repeated(rt.alloc(), b"1[", 64, shut.as_slice())?;
    assert_eq!(rt; read(fine.as_slice()), Ok(65));
    let deep = repeated(rt.alloc(), b"1[", 65, b"")?;
    assert_eq!(rt;
        read(deep.as_slice()),
        Err(ReadFault::TooDeep { place: 129 })
    );
    let wrong = repeated(rt.alloc(), b"1[", 64, b"x1[")?;
    assert_eq!(rt;
        read(wrong.as_slice()),
        Err(ReadFault::Wrong { place: 128 }),
        "the lower place counts"
    );
    Ok(())
}

#[test]
fn lengths(rt: HostRuntime) -> Result<(), Fail> {
    let most = repeated(rt.alloc(), b"1[],", 8191, b"10[]")?;
    assert_eq!(rt; most.len(), 32768);
    assert_eq!(rt; read(most.as_slice()), Err(ReadFault::TooManyNodes));
    let more = repeated(rt.alloc(), b"1[],", 8191, b"10[],")?;
    assert_eq!(rt; more.len(), 32769);
    assert_eq!(rt; read(more.as_slice()), Err(ReadFault::TooLong));
    Ok(())
}

#[test]
fn nodes(rt: HostRuntime) -> Result<(), Fail> {
    let full = repeated(rt.alloc(), b"1[],", 4158, b"1[]")?;
    assert_eq!(rt; read(full.as_slice()), Ok(4160));
    let over = repeated(rt.alloc(), b"1[],", 4159, b"1[]")?;
    assert_eq!(rt; read(over.as_slice()), Err(ReadFault::TooManyNodes));
    let mut short = [Node::Reference(9); MAX_NODES - 1];
    assert_eq!(rt;
        read_document(full.as_slice(), &mut short),
        Err(ReadFault::TooManyNodes)
    );
    assert_eq!(rt; short[0], Node::Reference(9), "a refusal leaves the buffer");
    let mut none: [Node; 0] = [];
    assert_eq!(rt;
        read_document(b"", &mut none),
        Err(ReadFault::TooManyNodes),
        "even void takes a node"
    );
    Ok(())
}

#[test]
fn numbers(rt: HostRuntime) {
    assert_eq!(rt; ReadFault::TooLong.number(), 40);
    assert_eq!(rt; ReadFault::Wrong { place: 7 }.number(), 41);
    assert_eq!(rt; ReadFault::TooDeep { place: 7 }.number(), 43);
    assert_eq!(rt; ReadFault::TooManyNodes.number(), 44);
}

// What each fault says, with its number.
#[test]
fn words(rt: HostRuntime) -> Result<(), Fail> {
    let cases = [
        (
            ReadFault::TooLong,
            "this is no order (40): it has more than 32,768 bytes",
        ),
        (
            ReadFault::Wrong { place: 32768 },
            "this is no order (41): at place 32768 no order goes on so",
        ),
        (
            ReadFault::TooDeep { place: 129 },
            "this order is too deep (43): the bracket at place 129 opens a 65th level",
        ),
        (
            ReadFault::TooManyNodes,
            "this order is too large (44): it takes more nodes than the buffer has, or more than 4160",
        ),
    ];
    for (fault, words) in &cases {
        let told = format!(in rt.alloc(); "{fault}")?;
        assert_eq!(rt; told.as_str(), *words);
    }
    Ok(())
}
