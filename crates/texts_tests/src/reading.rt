// Reading: right texts, and each fault at its place.
use forms::buffer::RowBuffer;
use forms::refusals::Refused;
use forms::{Capability, FormSource, Row};
use std::process::Abort;
use std::test::Fail;
use texts::{RowText, TextFault};

fn reads(rt: &impl Abort, text: &[u8], rows: &[Row]) -> Result<(), Fail> {
    let read = RowText::read(text)?;
    assert!(rt; RowBuffer::of(&read).rows() == rows);
    Ok(())
}

fn refused(rt: &impl Abort, text: &[u8], fault: TextFault) -> Result<(), Fail> {
    match RowText::read(text) {
        Ok(_) => Err(Fail::new("the text is read")),
        Err(found) => {
            assert_eq!(rt; found, fault);
            Ok(())
        },
    }
}

// The line repeated until the text is full.
fn fill(line: &[u8], text: &mut [u8]) {
    for (byte, filling) in text.iter_mut().zip(line.iter().cycle()) {
        *byte = *filling;
    }
}

#[test]
fn every_kind(rt: HostRuntime) -> Result<(), Fail> {
    let rows = [
        Row::Void,
        Row::Nothing,
        Row::Channel(Capability::In, 0),
        Row::Channel(Capability::Out, 9),
        Row::Channel(Capability::Both, 10),
        Row::Element {
            labels: 255,
            inside: 63,
            following: 0,
        },
        Row::Element {
            labels: 0x8000_0000_0000_0001,
            inside: 1,
            following: 2,
        },
        Row::Union(1, 2),
    ];
    reads(
        &rt,
        b"V,,,\nN,,,\nC,i,0,\nC,o,9,\nC,b,10,\nE,00000000000000ff,63,0\nE,8000000000000001,1,2\nU,,1,2\n",
        &rows,
    )?;
    reads(&rt, b"", &[])
}

#[test]
fn count_and_row(rt: HostRuntime) {
    let text = RowText::new(b"V,,,\nU,,0,63\n");
    assert!(rt; text.count() == 2 && text.row(1) == Some(Row::Union(0, 63)) && text.row(2) == None);
}

#[test]
fn as_many_lines_as_rows(rt: HostRuntime) -> Result<(), Fail> {
    let mut text = [0u8; 325];
    fill(b"V,,,\n", &mut text);
    reads(&rt, &text[0..320], &[Row::Void; 64])?;
    refused(&rt, &text, TextFault::TooManyLines)?;
    refused(&rt, &text[0..321], TextFault::TooManyLines)?;
    text[320] = b'x';
    refused(&rt, &text[0..321], TextFault::TooManyLines)
}

#[test]
fn longest(rt: HostRuntime) -> Result<(), Fail> {
    let mut text = [0u8; 1601];
    fill(b"E,0123456789abcdef,63,63\n", &mut text);
    reads(
        &rt,
        &text[0..1600],
        &[Row::Element {
            labels: 0x0123_4567_89ab_cdef,
            inside: 63,
            following: 63,
        }; 64],
    )?;
    refused(&rt, &text, TextFault::TooLong)
}

#[test]
fn long_and_wrong(rt: HostRuntime) -> Result<(), Fail> {
    let text = [b'x'; 1601];
    refused(
        &rt,
        &text[0..1600],
        TextFault::WrongLine { line: 0, field: 0 },
    )?;
    refused(&rt, &text, TextFault::TooLong)
}

#[test]
fn first_and_last_place(rt: HostRuntime) -> Result<(), Fail> {
    let mut text = [0u8; 320];
    fill(b"V,,,\n", &mut text);
    text[319] = b',';
    refused(&rt, &text, TextFault::WrongLine { line: 63, field: 3 })?;
    text[0] = b'x';
    refused(&rt, &text, TextFault::WrongLine { line: 0, field: 0 })
}

fn wrong(rt: &impl Abort, texts: &[&[u8]], line: u8, field: u8) -> Result<(), Fail> {
    for text in texts {
        refused(rt, text, TextFault::WrongLine { line, field })?;
    }
    Ok(())
}

#[test]
fn wrong_fields(rt: HostRuntime) -> Result<(), Fail> {
    wrong(
        &rt,
        &[b"\n", b"v,,,\n", b"VV,,,\n", b"V\n,,,\n", b",,,\n", b"V"],
        0,
        0,
    )?;
    wrong(
        &rt,
        &[
            b"V,x,,\n",
            b"C,x,0,\n",
            b"C,,0,\n",
            b"C,io,0,\n",
            b"U,0,0,0\n",
            b"V,",
            b"V,x,x,x\nX",
        ],
        0,
        1,
    )?;
    wrong(
        &rt,
        &[
            b"V,,\n",
            b"U,,64,0\n",
            b"U,,00,0\n",
            b"U,,01,0\n",
            b"U,,,0\n",
            b"C,i,100,\n",
            b"C,i,-1,\n",
            b"C,i,0\n",
        ],
        0,
        2,
    )?;
    wrong(
        &rt,
        &[
            b"V,,,",
            b"V,,,\r\n",
            b"V,,,,\n",
            b"U,,0,64\n",
            b"U,,0,0,\n",
            b"C,i,0,0\n",
            b"E,0000000000000000,0,\n",
        ],
        0,
        3,
    )
}

#[test]
fn wrong_labels(rt: HostRuntime) -> Result<(), Fail> {
    wrong(
        &rt,
        &[
            b"E,00000000000000FF,0,0\n",
            b"E,0000000000000ff,0,0\n",
            b"E,000000000000000ff,0,0\n",
            b"E,000000000000000g,0,0\n",
            b"E,,0,0\n",
        ],
        0,
        1,
    )
}

#[test]
fn wrong_second_line(rt: HostRuntime) -> Result<(), Fail> {
    wrong(&rt, &[b"V,,,\n\n"], 1, 0)?;
    wrong(&rt, &[b"V,,,\nC,x,99\nU,,,\n"], 1, 1)?;
    wrong(&rt, &[b"V,,,\nN,,,"], 1, 3)
}

#[test]
fn numbers(rt: HostRuntime) {
    assert!(rt;
        TextFault::TooLong.number() == 1
            && TextFault::WrongLine { line: 7, field: 3 }.number() == 2
            && TextFault::TooManyLines.number() == 3
    );
}

#[test]
fn taken_for_no_rows(rt: HostRuntime) {
    assert!(rt;
        RowText::new(b"V,,,\nU,,0,0\n").count() == 2
            && RowText::new(b"V,,,\nU,,0,64\n").count() == 0
    );
}

// What each fault says, with its number, and for a wrong line what each field asks for.
#[test]
fn words(rt: HostRuntime) -> Result<(), Fail> {
    let cases = [
        (
            TextFault::TooLong,
            "the text is refused (1): it has more than 1,600 bytes",
        ),
        (
            TextFault::WrongLine { line: 7, field: 0 },
            "the text is refused (2): line 7 is wrong at field 0, the kind: V, N, C, E or U is asked for (lines and fields are counted from 0)",
        ),
        (
            TextFault::WrongLine { line: 63, field: 1 },
            "the text is refused (2): line 63 is wrong at field 1: i, o or b for C, 16 hexadecimal digits for E, else nothing is asked for, and then a comma (lines and fields are counted from 0)",
        ),
        (
            TextFault::WrongLine { line: 0, field: 2 },
            "the text is refused (2): line 0 is wrong at field 2: a row number from 0 to 63 for C, E and U, else nothing is asked for, and then a comma (lines and fields are counted from 0)",
        ),
        (
            TextFault::WrongLine { line: 10, field: 3 },
            "the text is refused (2): line 10 is wrong at field 3: a row number from 0 to 63 for E and U, else nothing is asked for, and then the end of the line (lines and fields are counted from 0)",
        ),
        (
            TextFault::TooManyLines,
            "the text is refused (3): it has more than 64 lines",
        ),
    ];
    for (fault, words) in &cases {
        let told = format!(in rt.alloc(); "{fault}")?;
        assert_eq!(rt; told.as_str(), *words);
    }
    Ok(())
}
