// What the bytes of one field say.
ghost use Rattle.std.specs.Prelude.{◌≡◌, ◌+◌, ◌<◌, [], ◌∷◌};
ghost use Rattle.texts.specs.RowText.{letter, letter_of_capability, digit_in_hex};
ghost use Rattle.texts.specs.Reading.{Told, OfKind, OfCapability, OfLabels, OfNumber};

use super::kinds::Kind;
use forms::bytes::digit;
use forms::{Capability, MAX_ROWS};

// How many hexadecimal digits a label set has.
pub(crate) const LABEL_DIGITS: usize = 16;

// The one byte of a field that has just one.
fn single(field: &[u8]) -> Option<u8>
    ensures { Told (λ b. field.now ≡ b ∷ []) result }
{
    match field {
        [byte] => Some(*byte),
        _ => None,
    }
}

pub(crate) fn kind(field: &[u8]) -> Option<Kind>
    ensures { Told (OfKind field.now) result }
{
    Kind::try_from(single(field)?).ok()
}

// No `TryFrom` of `Capability`: that stands in forms, and these letters are those of row text alone.
fn capability_letter(byte: u8) -> Option<Capability>
    ensures { Told (λ c. byte ≡ letter_of_capability c) result }
{
    match byte {
        b'i' => Some(Capability::In),
        b'o' => Some(Capability::Out),
        b'b' => Some(Capability::Both),
        _ => None,
    }
}

pub(crate) fn capability(field: &[u8]) -> Option<Capability>
    ensures { Told (OfCapability field.now) result }
{
    capability_letter(single(field)?)
}

// A row number: one digit, or two of which the first is not 0.
pub(crate) fn number(field: &[u8]) -> Option<u8>
    ensures { Told (OfNumber field.now) result }
{
    match field {
        [ones] => digit(*ones),
        [tens, ones] => {
            let tens = digit(*tens)?;
            let ones = digit(*ones)?;
            let value = tens * 10 + ones;
            if tens > 0 && (value as usize) < MAX_ROWS {
                Some(value)
            } else {
                None
            }
        }
        _ => None,
    }
}

fn hex_value(byte: u8) -> Option<u8>
    ensures { Told (λ d. (d < 16) × (byte ≡ digit_in_hex d)) result }
{
    match byte {
        b'a'..=b'f' => Some(byte - b'a' + 10),
        _ => digit(byte),
    }
}

// A label set: sixteen hexadecimal digits.
pub(crate) fn labels(field: &[u8]) -> Option<u64>
    ensures { Told (OfLabels field.now) result }
{
    if field.len() != LABEL_DIGITS {
        return None;
    }
    let mut value: u64 = 0;
    for byte in field {
        let digit = hex_value(*byte)?;
        value = value * 16 + digit as u64;
    }
    Some(value)
}
