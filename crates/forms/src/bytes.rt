// Bytes and numbers as text, put into a buffer one after another.
ghost use Rattle.std.specs.Prelude.{◌≡◌, ℕ, ◌+◌, ◌<◌, ◌≤◌, [], ◌∷◌, length, decimal, MatchOption};
ghost use Rattle.forms.specs.Splices.{Wrote, Puts};

/// Writes a byte and answers the place behind it; no change, and the place itself, where there is no room.
///
/// The buffer and the place go in, and the place behind what was written comes out. A writer that holds the slice would have each contract say as well that it still holds the same one.
pub fn put(out: &mut [u8], place: usize, byte: u8) -> usize
    ensures { Puts out.old out.new place (byte ∷ []) result }
{
    if place >= out.len() {
        return place;
    }
    out[place] = byte;
    place + 1
}

/// The number that a digit stands for, or none where the byte is no digit.
pub fn digit(byte: u8) -> Option<u8>
    ensures { MatchOption result ((d : ℕ) → (d < 10) × (byte ≡ 48 + d) → ⊥) (λ d. (d < 10) × (byte ≡ 48 + d)) }
{
    match byte {
        b'0'..=b'9' => Some(byte - b'0'),
        _ => None,
    }
}

/// How many digits a number has, 1 to 3. What is written must fit before its first byte is put, so whoever measures a text asks for this alone.
#[tactic(auto, using(crate::proofs::Decimals::one_digit, crate::proofs::Decimals::two_digits, crate::proofs::Decimals::three_digits))]
pub fn digits(number: u8) -> usize
    ensures value { result ≡ length (decimal number) }
    ensures few { (1 ≤ result) × (result ≤ 3) }
{
    if number < 10 {
        1
    } else if number < 100 {
        2
    } else {
        3
    }
}

#[tactic(auto, using(std::proofs::lemmas::Fmt::decimal_digit))]
fn put_digits(out: &mut [u8], place: usize, number: u8) -> usize
    ensures { Wrote out.old out.new place (decimal number) result }
{
    if number < 10 {
        return put(out, place, b'0' + number);
    }
    let next = put_digits(out, place, number / 10);
    put(out, next, b'0' + number % 10)
}

/// Writes a number in decimal and answers the place behind it; no change, and the place itself, where there is no room for all its digits.
pub fn put_number(out: &mut [u8], place: usize, number: u8) -> usize
    ensures { Puts out.old out.new place (decimal number) result }
{
    if out.len().saturating_sub(place) < digits(number) {
        return place;
    }
    put_digits(out, place, number)
}
