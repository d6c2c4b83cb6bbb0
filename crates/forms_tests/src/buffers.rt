// Row buffers: how many rows they take, and which they give.
use forms::buffer::RowBuffer;
use forms::{Capability, FormSource, MAX_ROWS, Row};

#[test]
fn as_many_rows_as_there_may_be(rt: HostRuntime) {
    let full = RowBuffer::new(&[Row::Nothing; MAX_ROWS]);
    assert_eq!(rt; full.count(), MAX_ROWS);
    assert_eq!(rt; full.row(63), Some(Row::Nothing));
    assert_eq!(rt; full.row(64), None);
    let none = RowBuffer::new(&[Row::Nothing; 65]);
    assert_eq!(rt; none.count(), 0);
    assert_eq!(rt; none.row(0), None);
}

#[test]
fn a_full_buffer_takes_no_row(rt: HostRuntime) {
    let mut buffer = RowBuffer::new(&[Row::Nothing; 63]);
    assert!(rt; buffer.push(Row::Channel(Capability::In, 255)));
    assert!(rt; !buffer.push(Row::Void));
    assert_eq!(rt; buffer.count(), MAX_ROWS);
    assert_eq!(rt; buffer.row(62), Some(Row::Nothing));
    assert_eq!(rt; buffer.row(63), Some(Row::Channel(Capability::In, 255)));
    assert_eq!(rt; buffer.row(64), None);
}

#[test]
fn numbers_past_the_count_give_no_row(rt: HostRuntime) {
    let mut buffer = RowBuffer::empty();
    assert_eq!(rt; buffer.row(0), None);
    assert!(rt; buffer.push(Row::Union(0, 255)));
    assert_eq!(rt; buffer.row(0), Some(Row::Union(0, 255)));
    assert_eq!(rt; buffer.row(1), None);
    assert_eq!(rt; buffer.row(255), None);
}

#[test]
fn a_copy_has_the_same_rows(rt: HostRuntime) {
    let element = Row::Element {
        labels: 0xffff_ffff_ffff_ffff,
        inside: 255,
        following: 0,
    };
    let buffer = RowBuffer::new(&[Row::Void, element, Row::Nothing]);
    let copy = RowBuffer::of(&buffer);
    assert!(rt; copy.rows() == [Row::Void, element, Row::Nothing].as_slice());
    assert_eq!(rt; RowBuffer::of(&RowBuffer::empty()).count(), 0);
}
