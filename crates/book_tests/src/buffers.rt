// Handing out, showing and fitting, and what their buffers hold then.
use super::tables::{PATTERN, TABLE, worked};
use book::Book;
use book::types::{BookFault, Verdict};
use documents::nodes::{MAX_NODES, Node};
use documents::writer::write_document;
use fitting::faults::FitFault;
use forms::makes::Turned;
use relation::offering::{ROW_WORDS, has};
use showing::faults::ShowFault;
use std::process::Abort;
use std::test::Fail;
use texts::RowText;
use verdicts::faults::RowFault;

const MARKS: usize = 2 * ROW_WORDS;

const TOO_MANY: usize = MAX_NODES + 1;

#[test]
fn handed_out(rt: HostRuntime) {
    let mut book = worked();
    assert!(rt; book.ask((1, 2)).is_ok());
    assert!(rt; book.ask((8, 9)).is_ok());
    let mut long = [PATTERN; 3];
    assert_eq!(rt; book.hand_out(&mut long), Err(BookFault::RelationLength));
    assert_eq!(rt; long, [PATTERN; 3]);
    let mut right = [PATTERN; 2];
    assert_eq!(rt; book.hand_out(&mut right), Ok(3));
    assert_eq!(rt; right, [0x1001, 0x1000000]);
    assert_eq!(rt; book.offer(&right), Ok(0));
    assert_eq!(rt; book.clear(), Ok(()));
    assert_eq!(rt; book.offer(&right), Ok(3));
}

// What one book hands out is taken by another over equal rows, whatever it holds and whatever the make of its source.
#[test]
fn handed_over(rt: HostRuntime) {
    let mut book = worked();
    assert!(rt; book.ask((1, 2)).is_ok());
    assert!(rt; book.ask((2, 1)).is_ok());
    let mut relation = [PATTERN; 2];
    assert_eq!(rt; book.hand_out(&mut relation), Ok(2));
    let twice = Turned {
        source: Turned {
            source: RowText::new(TABLE),
        },
    };
    let mut other = Book::new(twice);
    assert_eq!(rt; other.ask((8, 8)), Ok((Verdict::Yes, 2)));
    assert_eq!(rt; other.offer(&relation), Ok(1));
    assert_eq!(rt; other.look_up((1, 2)), Ok(Some(Verdict::Yes)));
    assert_eq!(rt; other.look_up((2, 1)), Ok(None));
}

// Whether the last of the first k nodes is written as that text.
fn check_text(rt: &impl Abort, nodes: &[Node], k: usize, text: &[u8]) -> Result<(), Fail> {
    if k == 0 || k > nodes.len() {
        return Err(Fail::new("there are no such nodes"));
    }
    let mut buffer = [0; 64];
    let length = write_document(&nodes[..k], k - 1, &mut buffer)?;
    if length > 64 {
        return Err(Fail::new("the text is too long"));
    }
    assert_eq!(rt; &buffer[..length], text);
    Ok(())
}

// Ten rows ask for 110 nodes.
#[test]
fn shown(rt: HostRuntime) -> Result<(), Fail> {
    let mut book = worked();
    let asks: [((u8, u8), &[u8]); 2] = [((2, 1), b"2[]"), ((8, 9), b"")];
    for (pair, text) in asks {
        let mut nodes = [Node::Reference(9); 110];
        assert!(rt; book.ask(pair).is_ok());
        let k = book.show(pair, &mut nodes)?;
        check_text(&rt, &nodes, k, text)?;
    }
    Ok(())
}

// Of these pairs (1, 2) is held as yes and (2, 1) as no.
#[test]
fn not_shown(rt: HostRuntime) {
    let mut book = worked();
    assert!(rt; book.ask((1, 2)).is_ok());
    assert!(rt; book.ask((2, 1)).is_ok());
    for (pair, fault) in [
        ((10, 1), BookFault::NoRow(RowFault::Outside)),
        ((8, 9), BookFault::NotShown(ShowFault::NotNo)),
        ((1, 2), BookFault::NotShown(ShowFault::NotNo)),
        ((2, 1), BookFault::NotShown(ShowFault::FewNodes)),
    ] {
        let mut few = [Node::Reference(9); 109];
        assert_eq!(rt; book.show(pair, &mut few), Err(fault));
        assert_eq!(rt; few, [Node::Reference(9); 109]);
    }
}

// The rows of the worked table that a node is marked for, as bits.
fn marked(marks: &[u64], node: u16) -> u64 {
    let mut rows = 0;
    for row in 0..10 {
        if has(marks, node, row) {
            rows |= 1 << row;
        }
    }
    rows
}

// Void fits rows 0 and 8; the text 1[] fits rows 1, 2, 8 and 9, and 2[] row 2 alone.
#[test]
fn fitted(rt: HostRuntime) {
    let mut book = worked();
    for (label, row, fits, rows) in [(1, 1, true, 0x306), (2, 1, false, 4), (2, 2, true, 4)] {
        let element = Node::Element {
            label,
            inside: 0,
            following: 0,
        };
        let mut marks = [PATTERN; MARKS];
        assert_eq!(rt;
            book.fit(&[Node::Void, element], 1, row, &mut marks),
            Ok((fits, 0))
        );
        assert_eq!(rt; marked(&marks, 0), 0x101);
        assert_eq!(rt; marked(&marks, 1), rows);
    }
}

// The address of row 5 fits rows 3 and 5, which takes (5, 3), (5, 4) and (5, 5), with (1, 1), (2, 1) and (0, 0).
#[test]
fn fitted_references(rt: HostRuntime) {
    let mut book = worked();
    for new in [6, 0] {
        let mut marks = [PATTERN; ROW_WORDS];
        assert_eq!(rt;
            book.fit(&[Node::Reference(5)], 0, 3, &mut marks),
            Ok((true, new))
        );
        assert_eq!(rt; marked(&marks, 0), 0x28);
    }
    assert_eq!(rt; book.held(), Ok(6));
}

const LOOPED: Node = Node::Element {
    label: 1,
    inside: 0,
    following: 1,
};

// A row that is not there is told before anything that is wrong with the nodes.
#[test]
fn fitted_to_no_row(rt: HostRuntime) {
    let mut marks = [PATTERN; MARKS];
    let fitted = worked().fit(&[LOOPED], 9, 10, &mut marks);
    assert_eq!(rt;
        fitted,
        Err(BookFault::NotFitted(FitFault::NoRow(RowFault::Outside)))
    );
    assert_eq!(rt; marks, [PATTERN; MARKS]);
}

#[test]
fn not_fitted(rt: HostRuntime) {
    let mut book = worked();
    let unsound = FitFault::Unsound { node: 1 };
    let tries: [(&[Node], usize, FitFault); 5] = [
        (&[LOOPED; TOO_MANY], 0, FitFault::ManyNodes),
        (&[Node::Void, LOOPED], 9, unsound),
        (&[Node::Void, Node::Reference(1)], 9, unsound),
        (&[Node::Void], 1, FitFault::RootOutside),
        (&[Node::Void], 0, FitFault::MarksLength),
    ];
    for (nodes, root, fault) in tries {
        let mut marks = [PATTERN; MARKS];
        assert_eq!(rt;
            book.fit(nodes, root, 1, &mut marks),
            Err(BookFault::NotFitted(fault))
        );
        assert_eq!(rt; marks, [PATTERN; MARKS]);
    }
    assert_eq!(rt; book.held(), Ok(0));
}
