// Which tables are admitted, and which fault is found.
use forms::buffer::RowBuffer;
use forms::refusals::Refused;
use forms::{Capability, Row};
use relation::AdmissionFault;
use relation::admission::{admit, meets};
use std::test::Fail;

fn fault(rows: &[Row]) -> Option<AdmissionFault> {
    admit(&RowBuffer::new(rows)).err()
}

fn element(labels: u64, inside: u8, following: u8) -> Row {
    Row::Element {
        labels,
        inside,
        following,
    }
}

const TABLE: [Row; 11] = [
    Row::Void,
    Row::Element {
        labels: 2,
        inside: 0,
        following: 0,
    },
    Row::Element {
        labels: 6,
        inside: 0,
        following: 0,
    },
    Row::Channel(Capability::Out, 1),
    Row::Channel(Capability::Out, 2),
    Row::Channel(Capability::Both, 1),
    Row::Element {
        labels: 2,
        inside: 0,
        following: 6,
    },
    Row::Nothing,
    Row::Union(0, 9),
    Row::Element {
        labels: 2,
        inside: 0,
        following: 8,
    },
    Row::Union(1, 2),
];

#[test]
fn union_of_shared_labels(rt: HostRuntime) {
    assert_eq!(rt; fault(&TABLE[0..10]), None);
    assert_eq!(rt; fault(&TABLE), Some(AdmissionFault::LabelTwice { row: 10 }));
}

#[test]
fn one_row_twice(rt: HostRuntime) {
    assert_eq!(rt;
        fault(&[Row::Void, element(2, 0, 0), Row::Union(1, 1)]),
        None
    );
}

#[test]
fn unions_in_circles(rt: HostRuntime) {
    assert_eq!(rt; fault(&[Row::Union(0, 0)]), None);
    assert_eq!(rt; fault(&[Row::Union(1, 1), Row::Union(0, 0)]), None);
    let rows = [
        Row::Union(1, 3),
        Row::Union(0, 2),
        element(1, 4, 4),
        element(1, 4, 4),
        Row::Void,
    ];
    assert_eq!(rt; fault(&rows), Some(AdmissionFault::LabelTwice { row: 0 }));
}

#[test]
fn uninhabited_rows_do_not_count(rt: HostRuntime) {
    let mut rows = [
        Row::Void,
        element(2, 0, 0),
        element(2, 0, 4),
        Row::Union(1, 2),
        Row::Nothing,
    ];
    assert_eq!(rt; fault(&rows), None);
    rows[2] = element(2, 0, 2);
    assert_eq!(rt; fault(&rows), None);
    rows[2] = element(2, 0, 1);
    assert_eq!(rt; fault(&rows), Some(AdmissionFault::LabelTwice { row: 3 }));
}

#[test]
fn no_rows(rt: HostRuntime) {
    assert_eq!(rt; fault(&[]), Some(AdmissionFault::NoRows));
}

#[test]
fn numbers_outside_in_each_place(rt: HostRuntime) {
    let outside = Some(AdmissionFault::NumberOutside { row: 1 });
    assert_eq!(rt;
        fault(&[Row::Void, Row::Channel(Capability::In, 2)]),
        outside
    );
    assert_eq!(rt; fault(&[Row::Void, element(1, 2, 0)]), outside);
    assert_eq!(rt; fault(&[Row::Void, element(1, 0, 255)]), outside);
    assert_eq!(rt; fault(&[Row::Void, Row::Union(2, 0)]), outside);
    assert_eq!(rt; fault(&[Row::Void, Row::Union(0, 255)]), outside);
    assert_eq!(rt; fault(&[Row::Void, Row::Union(0, 1)]), None);
}

#[test]
fn number_outside_at_lowest_row(rt: HostRuntime) {
    let rows = [Row::Union(3, 0), Row::Void, Row::Union(9, 9)];
    assert_eq!(rt;
        fault(&rows),
        Some(AdmissionFault::NumberOutside { row: 0 })
    );
    assert_eq!(rt;
        fault(&rows[1..3]),
        Some(AdmissionFault::NumberOutside { row: 1 })
    );
}

#[test]
fn number_outside_comes_first(rt: HostRuntime) {
    let rows = [
        element(1, 4, 4),
        element(1, 4, 4),
        Row::Union(0, 1),
        Row::Channel(Capability::In, 5),
        Row::Void,
    ];
    assert_eq!(rt;
        fault(&rows),
        Some(AdmissionFault::NumberOutside { row: 3 })
    );
}

#[test]
fn faults_in_words(rt: HostRuntime) -> Result<(), Fail> {
    let faults = [
        (
            AdmissionFault::NoRows,
            11,
            "the table is not admitted (11): it has no rows",
        ),
        (
            AdmissionFault::NumberOutside { row: 3 },
            12,
            "the table is not admitted (12): row 3 has a number that is not that of a row",
        ),
        (
            AdmissionFault::LabelTwice { row: 10 },
            13,
            "the table is not admitted (13): row 10 offers two different inhabited element rows with a common label",
        ),
    ];
    for (fault, number, words) in faults.iter().copied() {
        assert_eq!(rt; fault.number(), number);
        let text = format!(in rt.alloc(); "{fault}")?;
        assert_eq!(rt; text.as_str(), words);
    }
    Ok(())
}

#[test]
fn label_sets_meet(rt: HostRuntime) {
    assert!(rt; meets(6, 3));
    assert!(rt; meets(0x8000_0000_0000_0000, 0xffff_ffff_ffff_ffff));
    assert!(rt; !meets(6, 9));
    assert!(rt; !meets(0, 0xffff_ffff_ffff_ffff));
}
