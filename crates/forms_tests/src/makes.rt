// Sources above other sources: joined, and turned.
use forms::buffer::RowBuffer;
use forms::makes::{Joined, Turned};
use forms::{Capability, FormSource, Row};

const fn element(labels: u64, inside: u8, following: u8) -> Row {
    Row::Element {
        labels,
        inside,
        following,
    }
}

// one row that offers itself or the last number
fn single() -> RowBuffer {
    RowBuffer::new(&[Row::Union(0, 255)])
}

fn pair() -> RowBuffer {
    RowBuffer::new(&[Row::Channel(Capability::In, 1), Row::Void])
}

fn full(count: usize) -> RowBuffer {
    let mut buffer = RowBuffer::empty();
    for _ in 0..count {
        buffer.push(Row::Nothing);
    }
    buffer
}

#[test]
fn numbers_of_the_second_rise(rt: HostRuntime) {
    let first = RowBuffer::new(&[Row::Channel(Capability::Both, 1), element(5, 0, 1)]);
    let second = RowBuffer::new(&[
        Row::Union(0, 2),
        element(9, 1, 2),
        Row::Channel(Capability::Out, 0),
    ]);
    let joined = Joined { first, second };
    assert_eq!(rt; joined.count(), 5);
    let rows = [
        Row::Channel(Capability::Both, 1),
        element(5, 0, 1),
        Row::Union(2, 4),
        element(9, 3, 4),
        Row::Channel(Capability::Out, 2),
    ];
    assert!(rt; RowBuffer::of(&joined).rows() == rows.as_slice());
    assert_eq!(rt; joined.row(4), Some(Row::Channel(Capability::Out, 2)));
    assert_eq!(rt; joined.row(5), None);
    assert_eq!(rt; joined.row(255), None);
}

#[test]
fn numbers_past_their_own_table(rt: HostRuntime) {
    let first = RowBuffer::new(&[Row::Union(0, 1), element(1, 2, 0)]);
    let second = RowBuffer::new(&[Row::Channel(Capability::In, 1), element(1, 0, 254)]);
    let alone = Joined {
        first: RowBuffer::new(&[Row::Union(0, 1)]),
        second: RowBuffer::empty(),
    };
    assert_eq!(rt; alone.row(0), Some(Row::Union(0, 255)));
    let joined = Joined { first, second };
    assert_eq!(rt; joined.row(0), Some(Row::Union(0, 1)));
    assert_eq!(rt; joined.row(1), Some(element(1, 255, 0)));
    assert_eq!(rt; joined.row(2), Some(Row::Channel(Capability::In, 3)));
    assert_eq!(rt; joined.row(3), Some(element(1, 2, 255)));
}

#[test]
fn as_many_rows_as_there_may_be(rt: HostRuntime) {
    let exact = Joined {
        first: full(63),
        second: single(),
    };
    assert_eq!(rt; exact.count(), 64);
    assert_eq!(rt; exact.row(63), Some(Row::Union(63, 255)));
    let many = Joined {
        first: full(64),
        second: single(),
    };
    assert_eq!(rt; many.count(), 0);
    assert_eq!(rt; many.row(0), None);
    assert_eq!(rt; many.row(64), None);
    assert_eq!(rt; RowBuffer::of(&many).count(), 0);
}

#[test]
fn three_tables_either_way(rt: HostRuntime) {
    let rows = [
        Row::Channel(Capability::In, 1),
        Row::Void,
        Row::Union(2, 255),
        Row::Channel(Capability::In, 4),
        Row::Void,
    ];
    let left = Joined {
        first: Joined {
            first: pair(),
            second: single(),
        },
        second: pair(),
    };
    assert!(rt; RowBuffer::of(&left).rows() == rows.as_slice());
    let right = Joined {
        first: pair(),
        second: Joined {
            first: single(),
            second: pair(),
        },
    };
    assert!(rt; RowBuffer::of(&right).rows() == rows.as_slice());
}

#[test]
fn turning_swaps_in_and_out(rt: HostRuntime) {
    let rows = [
        Row::Channel(Capability::In, 5),
        Row::Channel(Capability::Out, 255),
        Row::Channel(Capability::Both, 0),
        Row::Void,
        Row::Nothing,
        element(3, 1, 4),
        Row::Union(0, 1),
    ];
    let turned = Turned {
        source: RowBuffer::new(&rows),
    };
    assert_eq!(rt; turned.count(), 7);
    assert_eq!(rt; turned.row(0), Some(Row::Channel(Capability::Out, 5)));
    assert_eq!(rt; turned.row(1), Some(Row::Channel(Capability::In, 255)));
    assert_eq!(rt; turned.row(7), None);
    assert!(rt; &RowBuffer::of(&turned).rows()[2..7] == &rows[2..7]);
    let twice = Turned { source: turned };
    assert!(rt; RowBuffer::of(&twice).rows() == rows.as_slice());
}

#[test]
fn turned_and_joined(rt: HostRuntime) {
    let joined = Turned {
        source: Joined {
            first: Turned { source: pair() },
            second: pair(),
        },
    };
    let rows = [
        Row::Channel(Capability::In, 1),
        Row::Void,
        Row::Channel(Capability::Out, 3),
        Row::Void,
    ];
    assert!(rt; RowBuffer::of(&joined).rows() == rows.as_slice());
}
