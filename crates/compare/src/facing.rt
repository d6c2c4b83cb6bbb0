// Their table as it faces ours.
ghost use Rattle.std.specs.Prelude.{◌≡◌};
ghost use Rattle.texts.specs.Calls.{text_rows};
ghost use Rattle.compare.specs.Reasons.{facing};
ghost use Rattle.compare.specs.Facing.{faced, faced_laws};

use forms::makes::Turned;
use forms::{FormSource, Row};
use texts::RowText;

// A text as it stands, or turned.
#[derive(Drop)]
pub enum Facing {
    Straight(RowText),
    Swapped(Turned<RowText>),
}

impl Facing {
    // The text as it stands if t is 0, and turned if not.
    pub(crate) fn of(t: u64, source: RowText) -> Facing
        ensures { faced result ≡ facing t (text_rows source) }
    {
        if t == 0 {
            Facing::Straight(source)
        } else {
            Facing::Swapped(Turned { source })
        }
    }
}

impl FormSource for Facing {
    ghost rows = { faced };

    ghost lawful = { faced_laws };

    fn count(&self) -> usize {
        match self {
            Facing::Straight(source) => source.count(),
            Facing::Swapped(source) => source.count(),
        }
    }

    fn row(&self, number: u8) -> Option<Row> {
        match self {
            Facing::Straight(source) => source.row(number),
            Facing::Swapped(source) => source.row(number),
        }
    }
}
