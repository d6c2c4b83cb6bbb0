// Tables of forms: rows, and the sources that give them.
#![tactic(auto)]

ghost use Rattle.std.specs.Prelude.{◌≡◌, List, length, Decides};
ghost use Rattle.std.specs.List.{slice_get};
ghost use Rattle.forms.specs.declared.Row.{Row};
ghost use Rattle.forms.specs.Rows.{Lawful, NumbersBelow};

pub mod buffer;
pub mod bytes;
pub mod makes;
pub mod refusals;

/// The most rows that a table has.
pub const MAX_ROWS: usize = 64;

/// Labels are numbered from 0 to one less than this; a label set has a bit for each.
pub const LABELS: u8 = 64;

/// What the holder of a channel may do with it.
#[derive(Clone, Copy, PartialEq, Eq, Debug)]
pub enum Capability {
    /// receive
    In,
    /// send
    Out,
    /// receive and send, which is at most `In` and at most `Out`
    Both,
}

/// A form. Numbers in it are those of rows of the same table, its own among them: rows may name one another in a ring, so they hold no reference to each other.
#[derive(Clone, Copy, PartialEq, Eq, Debug)]
pub enum Row {
    /// the empty document
    Void,
    /// no document
    Nothing,
    /// an address: a capability, and the row of what is sent to it. The capability stays an enum beside the payload's number, since the rules on channels match on it.
    Channel(Capability, u8),
    /// an element: bit k of `labels` is set where label k belongs; the row of its inside and of what follows it
    Element {
        labels: u64,
        inside: u8,
        following: u8,
    },
    /// one or the other
    Union(u8, u8),
}

impl Row {
    /// Whether the numbers of rows in it are below the count.
    pub fn numbers_below(&self, count: usize) -> bool
        ensures { Decides result (NumbersBelow count self.now) }
    {
        match self {
            Row::Void | Row::Nothing => true,
            Row::Channel(_, payload) => (*payload as usize) < count,
            Row::Element {
                inside,
                following,
                ..
            } => (*inside as usize) < count && (*following as usize) < count,
            Row::Union(left, right) => (*left as usize) < count && (*right as usize) < count,
        }
    }
}

/// A source of rows: it means a list of at most 64 of them (`rows`). Whoever makes one shows that `count` and `row` follow that list, so that what is promised of one source is promised of all: a row buffer, a text, two sources side by side, a turned one.
pub trait FormSource {
    ghost rows: { Self → List Row };

    // at most 64 rows, each label set below 2^64, each number a byte
    ghost lawful: { (s : Self) → Lawful (rows s) };

    /// How many rows there are.
    fn count(&self) -> usize
        ensures { result ≡ length (rows self.now) };

    /// The row with that number, or none if there is none. It answers an `Option`, since any byte may be asked for and a table need not have that row.
    fn row(&self, number: u8) -> Option<Row>
        ensures { result ≡ slice_get (rows self.now) number };
}
