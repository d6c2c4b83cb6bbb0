// A book over a table that is not admitted.
use super::tables::{PATTERN, SHUT, TWO_PAIRS};
use book::Book;
use book::types::BookFault;
use documents::nodes::Node;
use forms::refusals::Refused;
use relation::AdmissionFault;
use texts::RowText;

const FAULT: BookFault = BookFault::NotAdmitted(AdmissionFault::LabelTwice { row: 10 });

#[test]
fn every_call(rt: HostRuntime) {
    let mut book = Book::new(RowText::new(SHUT));
    assert_eq!(rt; FAULT.number(), 13);
    assert_eq!(rt; book.ask((1, 2)), Err(FAULT));
    assert_eq!(rt; book.offer(&TWO_PAIRS), Err(FAULT));
    assert_eq!(rt; book.look_up((200, 1)), Err(FAULT));
    assert_eq!(rt; book.held(), Err(FAULT));
    assert_eq!(rt; book.clear(), Err(FAULT));
}

#[test]
fn buffers_stay(rt: HostRuntime) {
    let mut book = Book::new(RowText::new(SHUT));
    let mut relation = [PATTERN; 2];
    assert_eq!(rt; book.hand_out(&mut relation), Err(FAULT));
    assert_eq!(rt; relation, [PATTERN; 2]);
    let mut nodes = [Node::Reference(9); 132];
    assert_eq!(rt; book.show((2, 1), &mut nodes), Err(FAULT));
    assert_eq!(rt; nodes, [Node::Reference(9); 132]);
    let mut marks = [PATTERN];
    assert_eq!(rt; book.fit(&[Node::Void], 0, 0, &mut marks), Err(FAULT));
    assert_eq!(rt; marks, [PATTERN]);
}
