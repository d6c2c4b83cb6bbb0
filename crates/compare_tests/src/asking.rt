// Answers to questions, with what the buffer holds then.
use book::types::BookFault;
use compare::comparing::Finding;
use compare::faults::{CompareFault, JoinFault, Side};
use compare::questions::Question;
use compare::{compare, question};
use documents::faults::WriteFault;
use relation::AdmissionFault;
use std::process::Abort;
use std::test::Fail;
use texts::TextFault;
use verdicts::faults::RowFault;

const ONE: &[u8] = b"V,,,\nE,0000000000000002,0,0\n";

const TWO: &[u8] = b"V,,,\nE,0000000000000006,0,0\n";

const TO: &[u8] = b"V,,,\nC,o,0,\n";

const FROM: &[u8] = b"V,,,\nC,i,0,\n";

const LAST: u64 = 18446744073709551615;

// A question about rows p and q, without turning.
fn about<'a>(ours: &'a [u8], theirs: &'a [u8], p: u64, q: u64) -> Question<'a> {
    Question {
        ours,
        theirs,
        p,
        q,
        t: 0,
    }
}

// The answer, and that the buffer begins with the text and is as it was behind it.
fn gives(
    rt: &impl Abort,
    tables: (&[u8], &[u8]),
    asked: (u64, u64, u64),
    number: u64,
    text: &[u8],
) {
    let mut buffer = [7u8; 8];
    let asked = Question {
        t: asked.2,
        ..about(tables.0, tables.1, asked.0, asked.1)
    };
    let found = compare(asked, &mut buffer);
    assert_eq!(rt; found, number);
    assert!(rt; buffer.starts_with(text));
    assert!(rt; buffer.iter().skip(text.len()).all(|byte| *byte == 7));
}

#[test]
fn worked_case(rt: HostRuntime) {
    gives(&rt, (TWO, ONE), (1, 1, 0), 196609, b"2[]");
    gives(&rt, (ONE, TWO), (1, 1, 0), 0, b"");
}

#[test]
fn theirs_turned(rt: HostRuntime) {
    gives(&rt, (TO, FROM), (1, 1, 0), 131073, b"@1");
    gives(&rt, (TO, FROM), (1, 1, 1), 0, b"");
    gives(&rt, (TO, FROM), (1, 1, 7), 0, b"");
}

#[test]
fn texts_refused(rt: HostRuntime) {
    gives(&rt, (&[b'V'; 1601], b"X"), (9, 9, 0), 257, b"");
    gives(&rt, (b"V,,,\nE,2,0,0\n", b"X"), (9, 9, 0), 327938, b"");
    gives(&rt, (b"", b"V,,,"), (9, 9, 0), 197122, b"");
}

#[test]
fn tables_not_admitted(rt: HostRuntime) {
    gives(&rt, (b"", b""), (9, 9, 0), 779, b"");
    gives(&rt, (b"V,,,\nC,i,9,\n", b""), (9, 9, 0), 66316, b"");
    gives(
        &rt,
        (
            ONE,
            b"V,,,\nE,0000000000000002,0,0\nE,0000000000000002,0,0\nU,,1,2\n",
        ),
        (9, 9, 0),
        197645,
        b"",
    );
}

// Fills a text with void rows.
fn fill(text: &mut [u8]) {
    for line in text.chunks_exact_mut(5) {
        line.copy_from_slice(b"V,,,\n");
    }
}

fn beside_itself(rt: &impl Abort, rows: &[u8], row: u64, number: u64) {
    gives(rt, (rows, rows), (row, row, 0), number, b"");
}

#[test]
fn tables_too_long_together(rt: HostRuntime) {
    let mut rows = [0u8; 165];
    fill(&mut rows);
    beside_itself(&rt, &rows, 99, 1290);
}

#[test]
fn tables_just_short_enough(rt: HostRuntime) {
    let mut rows = [0u8; 160];
    fill(&mut rows);
    beside_itself(&rt, &rows, 31, 0);
}

#[test]
fn rows_outside(rt: HostRuntime) {
    gives(&rt, (ONE, TWO), (2, 2, 0), 1557, b"");
    gives(&rt, (ONE, TWO), (LAST, 1, 0), 1557, b"");
    gives(&rt, (ONE, TWO), (1, 2, 0), 67093, b"");
    gives(&rt, (ONE, TWO), (1, LAST, 1), 67093, b"");
}

#[test]
fn no_room(rt: HostRuntime) {
    let mut two = [7u8; 2];
    assert_eq!(rt; compare(about(TWO, ONE, 1, 1), &mut []), 1837);
    assert_eq!(rt; compare(about(ONE, TWO, 1, 1), &mut []), 0);
    assert_eq!(rt; compare(about(TWO, ONE, 1, 1), &mut two), 1837);
    assert_eq!(rt; two, [7; 2]);
    let mut three = [7u8; 3];
    assert_eq!(rt; compare(about(TWO, ONE, 1, 1), &mut three), 196609);
    assert_eq!(rt; three, *b"2[]");
}

#[test]
fn found(rt: HostRuntime) {
    let mut buffer = [7u8; 4];
    assert_eq!(rt;
        question(about(ONE, TWO, 1, 1), &mut buffer),
        Ok(Finding::Yes)
    );
    assert_eq!(rt; buffer, [7; 4]);
    assert_eq!(rt;
        question(about(TWO, ONE, 1, 1), &mut buffer),
        Ok(Finding::No { length: 3 })
    );
    assert_eq!(rt; &buffer, b"2[]\x07");
    let fault = CompareFault::Admission(Side::Ours, AdmissionFault::NoRows);
    assert_eq!(rt; question(about(b"", b"", 9, 9), &mut buffer), Err(fault));
}

// In numbers: the layer, the code, the place, and all three as one.
fn told(rt: &impl Abort, fault: CompareFault, layer: u8, code: u8, place: u32, packed: u64) {
    assert_eq!(rt; fault.layer(), layer);
    assert_eq!(rt; fault.code(), code);
    assert_eq!(rt; fault.place(), place);
    assert_eq!(rt; fault.packed(), packed);
}

#[test]
fn numbers(rt: HostRuntime) {
    let wrong = TextFault::WrongLine {
        line: 255,
        field: 255,
    };
    told(
        &rt,
        CompareFault::Text(Side::Theirs, wrong),
        2,
        2,
        1275,
        83558914,
    );
    told(
        &rt,
        CompareFault::Row(Side::Theirs, RowFault::Outside),
        6,
        21,
        1,
        67093,
    );
    let unsound = WriteFault::Unsound { node: 65535 };
    told(
        &rt,
        CompareFault::Writing(unsound),
        7,
        31,
        65535,
        4294903583,
    );
}

#[test]
fn side_words(rt: HostRuntime) -> Result<(), Fail> {
    let cases = [(Side::Ours, "our"), (Side::Theirs, "their")];
    for (side, words) in &cases {
        let told = format!(in rt.alloc(); "{side}")?;
        assert_eq!(rt; told.as_str(), *words);
    }
    Ok(())
}

#[test]
fn join_words(rt: HostRuntime) -> Result<(), Fail> {
    let told = format!(in rt.alloc(); "{}", JoinFault::TooManyRows)?;
    assert_eq!(rt;
        told.as_str(),
        "no answer (10): the two tables have more than 64 rows together"
    );
    Ok(())
}

#[test]
fn words(rt: HostRuntime) -> Result<(), Fail> {
    let wrong = TextFault::WrongLine { line: 3, field: 0 };
    let cases = [
        (
            CompareFault::Text(Side::Ours, TextFault::TooLong),
            "no answer: our table: the text is refused (1): it has more than 1,600 bytes",
        ),
        (
            CompareFault::Text(Side::Theirs, wrong),
            "no answer: their table: the text is refused (2): line 3 is wrong at field 0, the kind: V, N, C, E or U is asked for (lines and fields are counted from 0)",
        ),
        (
            CompareFault::Admission(Side::Ours, AdmissionFault::LabelTwice { row: 10 }),
            "no answer: our table: the table is not admitted (13): row 10 offers two different inhabited element rows with a common label",
        ),
        (
            CompareFault::Admission(Side::Theirs, AdmissionFault::NoRows),
            "no answer: their table: the table is not admitted (11): it has no rows",
        ),
        (
            CompareFault::Joining(JoinFault::TooManyRows),
            "no answer (10): the two tables have more than 64 rows together",
        ),
        (
            CompareFault::Row(Side::Ours, RowFault::Outside),
            "no answer (21): our table has no row with the number that was asked about",
        ),
        (
            CompareFault::Row(Side::Theirs, RowFault::Outside),
            "no answer (21): their table has no row with the number that was asked about",
        ),
        (
            CompareFault::Asking(BookFault::BitOutside),
            "no answer: refused (23): the relation has a bit that is no pair's",
        ),
        (
            CompareFault::Writing(WriteFault::TooLong),
            "the order cannot be written (45): the text is longer than the buffer, or than 32,768 bytes",
        ),
    ];
    for (fault, words) in &cases {
        let told = format!(in rt.alloc(); "{fault}")?;
        assert_eq!(rt; told.as_str(), *words);
    }
    Ok(())
}
