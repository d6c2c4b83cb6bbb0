// Asking, offering, looking up, counting and clearing.
use super::tables::{TABLE, TWO_PAIRS, worked};
use book::Book;
use book::types::{BookFault, Verdict};
use forms::FormSource;
use forms::makes::{Joined, Turned};
use std::process::Abort;
use texts::RowText;
use verdicts::faults::RowFault;

// Each pair is asked about on an empty book: its verdict, and how many pairs are new.
fn ask_each<S: FormSource>(
    rt: &impl Abort,
    book: &mut Book<S>,
    asks: &[((u8, u8), Verdict, usize)],
) {
    for ask in asks {
        let (pair, verdict, new) = *ask;
        assert_eq!(rt; book.clear(), Ok(()));
        assert_eq!(rt; book.ask(pair), Ok((verdict, new)));
        assert_eq!(rt; book.ask(pair), Ok((verdict, 0)));
        assert_eq!(rt; book.look_up(pair), Ok(Some(verdict)));
        assert_eq!(rt; book.held(), Ok(new));
    }
}

#[test]
fn asked(rt: HostRuntime) {
    let asks = [
        ((1, 2), Verdict::Yes, 2),
        ((2, 1), Verdict::No, 2),
        ((4, 3), Verdict::Yes, 3),
        ((3, 4), Verdict::No, 3),
        ((5, 3), Verdict::Yes, 3),
        ((3, 5), Verdict::No, 1),
        ((6, 7), Verdict::Yes, 1),
        ((8, 8), Verdict::Yes, 2),
        ((8, 9), Verdict::No, 3),
    ];
    ask_each(&rt, &mut worked(), &asks);
}

// Row 12 of two worked tables side by side is row 2 of the second; where in and out are swapped, so are the verdicts on channels.
#[test]
fn asked_of_other_sources(rt: HostRuntime) {
    let joined = Joined {
        first: RowText::new(TABLE),
        second: RowText::new(TABLE),
    };
    let asks = [((1, 12), Verdict::Yes, 2), ((12, 1), Verdict::No, 2)];
    ask_each(&rt, &mut Book::new(joined), &asks);
    let turned = Turned {
        source: RowText::new(TABLE),
    };
    let asks = [((3, 4), Verdict::Yes, 3), ((4, 3), Verdict::No, 3)];
    ask_each(&rt, &mut Book::new(turned), &asks);
}

// Each relation is offered to an empty book.
#[test]
fn offered(rt: HostRuntime) {
    let broken = BookFault::RuleBroken { p: 1, q: 2 };
    let offers: [(&[u64], Result<usize, BookFault>); 6] = [
        (&[], Err(BookFault::RelationLength)),
        (&[0, 0, 0], Err(BookFault::RelationLength)),
        (&[0, 1 << 36], Err(BookFault::BitOutside)),
        (&[1 << 12, 0], Err(broken)),
        (&[0, 0], Ok(0)),
        (&TWO_PAIRS, Ok(2)),
    ];
    for offer in offers {
        let (relation, answer) = offer;
        let mut book = worked();
        assert_eq!(rt; book.offer(relation), answer);
        assert_eq!(rt; book.held(), Ok(answer.unwrap_or(0)));
    }
}

#[test]
fn held_until_cleared(rt: HostRuntime) {
    let mut book = worked();
    assert_eq!(rt; book.offer(&TWO_PAIRS), Ok(2));
    assert_eq!(rt; book.offer(&TWO_PAIRS), Ok(0));
    assert_eq!(rt; book.look_up((1, 2)), Ok(Some(Verdict::Yes)));
    assert_eq!(rt; book.look_up((2, 1)), Ok(None));
    assert_eq!(rt; book.ask((1, 2)), Ok((Verdict::Yes, 0)));
    assert_eq!(rt; book.ask((2, 1)), Ok((Verdict::No, 1)));
    assert_eq!(rt; book.look_up((2, 1)), Ok(Some(Verdict::No)));
    assert_eq!(rt; book.held(), Ok(3));
    assert_eq!(rt; book.clear(), Ok(()));
    assert_eq!(rt; book.look_up((1, 2)), Ok(None));
    assert_eq!(rt; book.held(), Ok(0));
}

#[test]
fn outside(rt: HostRuntime) {
    let mut book = worked();
    for pair in [(10, 0), (0, 10), (255, 255)] {
        assert_eq!(rt; book.ask(pair), Err(BookFault::NoRow(RowFault::Outside)));
        assert_eq!(rt;
            book.look_up(pair),
            Err(BookFault::NoRow(RowFault::Outside))
        );
    }
    assert_eq!(rt; book.held(), Ok(0));
}
