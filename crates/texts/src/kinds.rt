// The kinds of rows, and the letters that stand for them.
ghost use Rattle.std.specs.Prelude.{◌≡◌, MatchResult};
ghost use Rattle.texts.specs.declared.kinds.Kind.{Kind as kind_type};
ghost use Rattle.texts.specs.RowText.{letter, kind};

use forms::Row;

#[derive(Clone, Copy)]
pub(crate) enum Kind {
    Void,
    Nothing,
    Channel,
    Element,
    Union,
}

// A byte that is the letter of no kind.
#[derive(Clone, Copy)]
pub(crate) struct NoKind;

impl TryFrom<u8> for Kind {
    type Error = NoKind;

    ghost try_from_gives = { λ byte r. MatchResult r (λ k. byte ≡ letter k) (λ _. (k : kind_type) → byte ≡ letter k → ⊥) };

    fn try_from(byte: u8) -> Result<Kind, NoKind> {
        match byte {
            b'V' => Ok(Kind::Void),
            b'N' => Ok(Kind::Nothing),
            b'C' => Ok(Kind::Channel),
            b'E' => Ok(Kind::Element),
            b'U' => Ok(Kind::Union),
            _ => Err(NoKind),
        }
    }
}

impl From<Kind> for u8 {
    ghost from_gives = { λ k byte. byte ≡ letter k };

    fn from(kind: Kind) -> u8 {
        match kind {
            Kind::Void => b'V',
            Kind::Nothing => b'N',
            Kind::Channel => b'C',
            Kind::Element => b'E',
            Kind::Union => b'U',
        }
    }
}

impl From<Row> for Kind {
    ghost from_gives = { λ row k. k ≡ kind row };

    fn from(row: Row) -> Kind {
        match row {
            Row::Void => Kind::Void,
            Row::Nothing => Kind::Nothing,
            Row::Channel(..) => Kind::Channel,
            Row::Element { .. } => Kind::Element,
            Row::Union(..) => Kind::Union,
        }
    }
}
