// What rows offer, and which are inhabited.
use forms::buffer::RowBuffer;
use forms::{Capability, Row};
use relation::analysis::analyze;

#[test]
fn unions_offer_their_sides(rt: HostRuntime) {
    let rows = [Row::Union(1, 2), Row::Union(3, 0), Row::Void, Row::Nothing];
    let a = analyze(&RowBuffer::new(&rows));
    assert!(rt; a.offers(0, 2) && a.offers(0, 3) && a.offers(1, 2) && a.offers(1, 3));
    assert!(rt; !a.offers(0, 0) && !a.offers(0, 1) && !a.offers(2, 3));
    assert!(rt; a.offers(2, 2) && a.offers(3, 3));
    assert!(rt; a.is_inhabited(0) && a.is_inhabited(1) && !a.is_inhabited(3));
}

#[test]
fn union_of_itself_offers_nothing(rt: HostRuntime) {
    let a = analyze(&RowBuffer::new(&[Row::Union(0, 0), Row::Union(2, 2), Row::Union(1, 1)]));
    assert!(rt; !a.offers(0, 0) && !a.offers(1, 2) && !a.offers(2, 2));
    assert!(rt; !a.is_inhabited(0) && !a.is_inhabited(1) && !a.is_inhabited(2));
}

#[test]
fn numbers_past_the_table_offer_nothing(rt: HostRuntime) {
    let a = analyze(&RowBuffer::new(&[Row::Union(255, 1), Row::Union(2, 63), Row::Void]));
    assert!(rt; a.offers(0, 2) && !a.offers(0, 63) && !a.offers(255, 255) && !a.offers(0, 66));
    assert!(rt; a.is_inhabited(1) && !a.is_inhabited(63) && !a.is_inhabited(255));
}

#[test]
fn elements_want_labels_and_parts(rt: HostRuntime) {
    let rows = [
        Row::Channel(Capability::In, 9),
        Row::Element {
            labels: 0,
            inside: 0,
            following: 0,
        },
        Row::Element {
            labels: 1,
            inside: 0,
            following: 9,
        },
        Row::Element {
            labels: 1,
            inside: 3,
            following: 0,
        },
        Row::Element {
            labels: 1,
            inside: 0,
            following: 0,
        },
    ];
    let a = analyze(&RowBuffer::new(&rows));
    assert!(rt; a.is_inhabited(0) && a.is_inhabited(4));
    assert!(rt; !a.is_inhabited(1) && !a.is_inhabited(2) && !a.is_inhabited(3));
}

// A chain of unions that ends in a row with a document: each is inhabited, and offers that row alone.
#[test]
fn long_chain(rt: HostRuntime) {
    let mut buffer = RowBuffer::empty();
    for p in 0..63u8 {
        buffer.push(Row::Union(p + 1, p));
    }
    buffer.push(Row::Void);
    let a = analyze(&buffer);
    assert!(rt; a.offers(0, 63) && a.is_inhabited(0) && !a.offers(0, 62));
}
