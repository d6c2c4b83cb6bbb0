// Writing: the text of rows, each refusal, and the round trips.
use forms::buffer::RowBuffer;
use forms::refusals::Refused;
use forms::{Capability, Row};
use std::process::Abort;
use std::test::Fail;
use texts::writing::write_rows;
use texts::{RowText, RowsFault};

// The rows are written as this text, before bytes that stay as they are, and read back.
fn writes(rt: &impl Abort, rows: &[Row], text: &[u8]) -> Result<(), Fail> {
    let mut out = [b'.'; 1602];
    let n = write_rows(&RowBuffer::new(rows), &mut out)?;
    assert!(rt; n == text.len() && n < 1602);
    assert!(rt; &out[0..n] == text && out[n] == b'.' && out[1601] == b'.');
    let read = RowText::read(&out[0..n])?;
    assert!(rt; RowBuffer::of(&read).rows() == rows);
    Ok(())
}

// The text is read, and written as the same bytes.
fn kept(rt: &impl Abort, text: &[u8]) -> Result<(), Fail> {
    let mut out = [b'.'; 1600];
    let n = write_rows(&RowText::read(text)?, &mut out)?;
    assert!(rt; n <= 1600);
    assert!(rt; &out[0..n] == text);
    Ok(())
}

// The rows are refused, and the bytes stay as they are.
fn refused(rt: &impl Abort, rows: &[Row], out: &mut [u8], fault: RowsFault) -> Result<(), Fail> {
    out.fill(b'.');
    match write_rows(&RowBuffer::new(rows), out) {
        Ok(_) => return Err(Fail::new("the rows are written")),
        Err(found) => assert_eq!(rt; found, fault),
    }
    for byte in out {
        assert!(rt; *byte == b'.');
    }
    Ok(())
}

#[test]
fn every_kind(rt: HostRuntime) -> Result<(), Fail> {
    writes(
        &rt,
        &[
            Row::Void,
            Row::Nothing,
            Row::Channel(Capability::Out, 9),
            Row::Union(1, 2),
        ],
        b"V,,,\nN,,,\nC,o,9,\nU,,1,2\n",
    )?;
    writes(
        &rt,
        &[
            Row::Channel(Capability::In, 0),
            Row::Channel(Capability::Both, 63),
        ],
        b"C,i,0,\nC,b,63,\n",
    )?;
    writes(
        &rt,
        &[Row::Element {
            labels: 0x0123_4567_89ab_cdef,
            inside: 63,
            following: 10,
        }],
        b"E,0123456789abcdef,63,10\n",
    )?;
    writes(&rt, &[], b"")
}

#[test]
fn read_and_written(rt: HostRuntime) -> Result<(), Fail> {
    kept(
        &rt,
        b"V,,,\nN,,,\nC,o,9,\nE,00000000000000ff,63,10\nU,,1,2\n",
    )?;
    kept(&rt, b"")
}

#[test]
fn lowest_row_over(rt: HostRuntime) -> Result<(), Fail> {
    let mut out = [0u8; 40];
    refused(
        &rt,
        &[
            Row::Void,
            Row::Channel(Capability::In, 64),
            Row::Union(255, 0),
        ],
        &mut out,
        RowsFault::NumberOver { row: 1 },
    )?;
    refused(
        &rt,
        &[Row::Void, Row::Union(0, 64)],
        &mut [],
        RowsFault::NumberOver { row: 1 },
    )
}

#[test]
fn each_number_over(rt: HostRuntime) -> Result<(), Fail> {
    let over = RowsFault::NumberOver { row: 0 };
    let mut out = [0u8; 40];
    refused(&rt, &[Row::Union(64, 0)], &mut out, over)?;
    refused(&rt, &[Row::Union(0, 64)], &mut out, over)?;
    refused(
        &rt,
        &[Row::Element {
            labels: 0,
            inside: 64,
            following: 0,
        }],
        &mut out,
        over,
    )?;
    refused(
        &rt,
        &[Row::Element {
            labels: 0,
            inside: 0,
            following: 64,
        }],
        &mut out,
        over,
    )
}

#[test]
fn room(rt: HostRuntime) -> Result<(), Fail> {
    let mut short = [0u8; 7];
    refused(&rt, &[Row::Union(0, 63)], &mut short, RowsFault::NoRoom)?;
    let mut exact = [0u8; 8];
    let n = write_rows(&RowBuffer::new(&[Row::Union(0, 63)]), &mut exact)?;
    assert!(rt; n == 8 && &exact[..] == b"U,,0,63\n".as_slice());
    Ok(())
}

#[test]
fn longest(rt: HostRuntime) -> Result<(), Fail> {
    let rows = [Row::Element {
        labels: 7,
        inside: 63,
        following: 63,
    }; 64];
    let mut short = [0u8; 1599];
    refused(&rt, &rows, &mut short, RowsFault::NoRoom)?;
    let mut exact = [0u8; 1600];
    let n = write_rows(&RowBuffer::new(&rows), &mut exact)?;
    assert!(rt; n == 1600 && &exact[1575..1600] == b"E,0000000000000007,63,63\n".as_slice());
    Ok(())
}

#[test]
fn numbers(rt: HostRuntime) {
    assert!(rt; RowsFault::NumberOver { row: 7 }.number() == 4 && RowsFault::NoRoom.number() == 5);
}

// What each fault says, with its number.
#[test]
fn words(rt: HostRuntime) -> Result<(), Fail> {
    let cases = [
        (
            RowsFault::NumberOver { row: 7 },
            "it cannot be written (4): row 7 has a number above 63, since it pointed past its own table",
        ),
        (
            RowsFault::NoRoom,
            "it cannot be written (5): the text is longer than the buffer",
        ),
    ];
    for (fault, words) in &cases {
        let told = format!(in rt.alloc(); "{fault}")?;
        assert_eq!(rt; told.as_str(), *words);
    }
    Ok(())
}
