// The pairs of rows that the rules name for two rows: at most two.
ghost use Rattle.std.specs.Prelude.{◌≡◌};
ghost use Rattle.verdicts.specs.Naming.{both, names_of_payloads, names_by_channel, names_by_element, named_by};

use forms::{Capability, Row};
use relation::admission::meets;

// The pairs of payloads that the rules name for two channels.
fn named_payloads(c: (Capability, u8), d: (Capability, u8)) -> [Option<(u8, u8)>; 2]
    ensures { result ≡ both (names_of_payloads c.0 d.0 c.1 d.1) }
{
    match (c.0, d.0) {
        (Capability::In | Capability::Both, Capability::In) => [Some((c.1, d.1)), None],
        (Capability::Out | Capability::Both, Capability::Out) => [None, Some((d.1, c.1))],
        (Capability::Both, Capability::Both) => [Some((c.1, d.1)), Some((d.1, c.1))],
        _ => [None, None],
    }
}

// The pairs of payloads that they name for a channel and a row, if that is a channel row too.
fn named_by_channel(c: (Capability, u8), row: Option<Row>) -> [Option<(u8, u8)>; 2]
    ensures { result ≡ both (names_by_channel c.0 c.1 row) }
{
    match row {
        Some(Row::Channel(capability, payload)) => named_payloads(c, (capability, payload)),
        _ => [None, None],
    }
}

// The pairs of parts that the rules name for an element and a row.
fn named_by_element(labels: u64, parts: (u8, u8), row: Option<Row>) -> [Option<(u8, u8)>; 2]
    ensures { result ≡ both (names_by_element labels parts.0 parts.1 row) }
{
    match row {
        Some(
            Row::Element {
                labels: other,
                inside,
                following,
            },
        ) => {
            if meets(labels, other) {
                [Some((parts.0, inside)), Some((parts.1, following))]
            } else {
                [None, None]
            }
        }
        _ => [None, None],
    }
}

// The pairs that the rules name for two rows.
pub(crate) fn named_by(c: Option<Row>, d: Option<Row>) -> [Option<(u8, u8)>; 2]
    ensures { result ≡ both (named_by c d) }
{
    match c {
        Some(Row::Channel(capability, payload)) => named_by_channel((capability, payload), d),
        Some(
            Row::Element {
                labels,
                inside,
                following,
            },
        ) => named_by_element(labels, (inside, following), d),
        _ => [None, None],
    }
}
