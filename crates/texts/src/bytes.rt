// Writing one row into a buffer of bytes.
ghost use Rattle.std.specs.Prelude.{◌≡◌, ◌<◌};
ghost use Rattle.forms.specs.Splices.{Wrote};
ghost use Rattle.texts.specs.Limits.{label_digits};
ghost use Rattle.texts.specs.RowText.{letter_of_capability, digit_in_hex, hexadecimal, field_1, field_2, field_3, spelled_row};

use super::kinds::Kind;
use super::values::LABEL_DIGITS;
use forms::bytes::{put, put_number};
use forms::{Capability, Row};

fn hex_digit(value: u8) -> u8
    requires { value < 16 }
    ensures { result ≡ digit_in_hex value }
{
    if value < 10 {
        b'0' + value
    } else {
        b'a' + (value - 10)
    }
}

// Writes the hexadecimal digits of a label set, and answers the place behind them, as all functions here do.
fn put_labels(out: &mut [u8], place: usize, labels: u64) -> usize
    ensures { Wrote out.old out.new place (hexadecimal label_digits labels) result }
{
    let mut next = place;
    for behind in (0..LABEL_DIGITS).rev() {
        let digit = (labels >> (4 * behind)) % 16;
        next = put(out, next, hex_digit(digit as u8));
    }
    next
}

// No `From` of `Capability`: that stands in forms, and these letters are those of row text alone.
fn capability_letter(capability: Capability) -> u8
    ensures { result ≡ letter_of_capability capability }
{
    match capability {
        Capability::In => b'i',
        Capability::Out => b'o',
        Capability::Both => b'b',
    }
}

fn put_first(out: &mut [u8], place: usize, row: Row) -> usize
    ensures { Wrote out.old out.new place (field_1 row) result }
{
    match row {
        Row::Channel(capability, _) => put(out, place, capability_letter(capability)),
        Row::Element { labels, .. } => put_labels(out, place, labels),
        Row::Void | Row::Nothing | Row::Union(..) => place,
    }
}

fn put_second(out: &mut [u8], place: usize, row: Row) -> usize
    ensures { Wrote out.old out.new place (field_2 row) result }
{
    match row {
        Row::Channel(_, payload) => put_number(out, place, payload),
        Row::Element { inside, .. } => put_number(out, place, inside),
        Row::Union(left, _) => put_number(out, place, left),
        Row::Void | Row::Nothing => place,
    }
}

fn put_third(out: &mut [u8], place: usize, row: Row) -> usize
    ensures { Wrote out.old out.new place (field_3 row) result }
{
    match row {
        Row::Element { following, .. } => put_number(out, place, following),
        Row::Union(_, right) => put_number(out, place, right),
        Row::Void | Row::Nothing | Row::Channel(..) => place,
    }
}

// Writes the line of a row.
pub(crate) fn put_row(out: &mut [u8], place: usize, row: Row) -> usize
    ensures { Wrote out.old out.new place (spelled_row row) result }
{
    let after = put(out, place, u8::from(Kind::from(row)));
    let first = put(out, after, b',');
    let behind = put_first(out, first, row);
    let second = put(out, behind, b',');
    let past = put_second(out, second, row);
    let third = put(out, past, b',');
    let end = put_third(out, third, row);
    put(out, end, b'\n')
}
