// The fields of a line: where each ends, and its value.
ghost use Rattle.std.specs.Prelude.{◌≡◌, ℕ, List};
ghost use Rattle.std.specs.List.{position};
ghost use Rattle.texts.specs.RowText.{stops, end_of};
ghost use Rattle.texts.specs.Reading.{Told, FieldRead, OfKind, OfCapability, OfLabels, OfNumber, OfBlank};

use super::kinds::Kind;
use super::values;
use forms::Capability;

// What a field can say: a kind, a capability, a label set (u64), a row number (u8), or nothing.
pub(crate) trait Value: Copy {
    ghost spells: { List ℕ → Self → Type 0 };

    fn parse(field: &[u8]) -> Option<Self>
        ensures { Told (spells field.now) result };
}

impl Value for Kind {
    ghost spells = { OfKind };

    fn parse(field: &[u8]) -> Option<Kind> {
        values::kind(field)
    }
}

impl Value for u8 {
    ghost spells = { OfNumber };

    fn parse(field: &[u8]) -> Option<u8> {
        values::number(field)
    }
}

impl Value for Capability {
    ghost spells = { OfCapability };

    fn parse(field: &[u8]) -> Option<Capability> {
        values::capability(field)
    }
}

impl Value for u64 {
    ghost spells = { OfLabels };

    fn parse(field: &[u8]) -> Option<u64> {
        values::labels(field)
    }
}

impl Value for () {
    ghost spells = { OfBlank };

    fn parse(field: &[u8]) -> Option<()> {
        field.is_empty().then_some(())
    }
}

fn is_stop(byte: u8) -> bool
    ensures { result ≡ stops byte }
{
    byte == b',' || byte == b'\n'
}

// The byte that ends this field of a line.
fn end_byte(number: u8) -> u8
    ensures { result ≡ end_of number }
{
    if number == 3 { b'\n' } else { b',' }
}

// How long the field is that the text begins with.
fn length(text: &[u8]) -> Option<usize>
    ensures { result ≡ position stops text.now }
{
    text.iter().position(|byte| is_stop(*byte))
}

// The value of the field that the text begins with, and the text behind its end, which is that of this field of a line; the field's number if it is wrong.
pub(crate) fn read<T: Value>(text: &[u8], number: u8) -> Result<(T, &[u8]), u8>
    ensures { FieldRead T.Value.spells text.now number result }
{
    let end = length(text).ok_or(number)?;
    if text[end] != end_byte(number) {
        return Err(number);
    }
    let value = T::parse(&text[..end]).ok_or(number)?;
    Ok((value, &text[end + 1..]))
}
