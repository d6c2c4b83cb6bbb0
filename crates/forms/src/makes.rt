// Sources above other sources: two side by side, and one turned.
ghost use Rattle.std.specs.Prelude.{◌≡◌, ◌+◌, ◌≤◌, map};
ghost use Rattle.forms.specs.Limits.{max_rows};
ghost use Rattle.forms.specs.Rows.{raised, shift, joined, turn};
ghost use Rattle.forms.specs.Laws.{joined_laws, turned_laws};

use super::{Capability, FormSource, MAX_ROWS, Row};

// What stands for a row number that lies past its own table: no row has this number.
const PAST: u8 = 255;

fn raise(by: u8, own: usize, number: u8) -> u8
    requires { by + own ≤ max_rows }
    ensures { result ≡ raised by own number }
{
    if (number as usize) < own {
        number + by
    } else {
        PAST
    }
}

fn shifted(by: u8, own: usize, row: Row) -> Row
    requires { by + own ≤ max_rows }
    ensures { result ≡ shift by own row }
{
    match row {
        Row::Void | Row::Nothing => row,
        Row::Channel(capability, payload) => Row::Channel(capability, raise(by, own, payload)),
        Row::Element {
            labels,
            inside,
            following,
        } => Row::Element {
            labels,
            inside: raise(by, own, inside),
            following: raise(by, own, following),
        },
        Row::Union(left, right) => Row::Union(raise(by, own, left), raise(by, own, right)),
    }
}

/// Two sources side by side: the second's numbers rise by the first's count, and a number past its own table becomes 255. No rows if there are more than 64 together: making a source never refuses, and a table without rows is one that admission refuses.
///
/// It holds the two by value, of whichever makes they are, and is a source itself: so sources nest, and whoever holds one holds all below it.
#[derive(Drop)]
pub struct Joined<A, B> {
    pub first: A,
    pub second: B,
}

impl<A: FormSource, B: FormSource> FormSource for Joined<A, B> {
    ghost rows = { λ s. joined (A.FormSource.rows s.first) (B.FormSource.rows s.second) };

    ghost lawful = { λ s. joined_laws (A.FormSource.rows s.first) (B.FormSource.rows s.second) (A.FormSource.lawful s.first) (B.FormSource.lawful s.second) };

    fn count(&self) -> usize {
        let both = self.first.count() + self.second.count();
        if both > MAX_ROWS { 0 } else { both }
    }

    fn row(&self, number: u8) -> Option<Row> {
        if number as usize >= self.count() {
            return None;
        }
        let own = self.first.count();
        if (number as usize) < own {
            self.first.row(number).map(|row| shifted(0, own, row))
        } else {
            let other = self.second.count();
            self.second
                .row(number - own as u8)
                .map(|row| shifted(own as u8, other, row))
        }
    }
}

fn swapped(row: Row) -> Row
    ensures { result ≡ turn row }
{
    match row {
        Row::Channel(Capability::In, payload) => Row::Channel(Capability::Out, payload),
        Row::Channel(Capability::Out, payload) => Row::Channel(Capability::In, payload),
        other => other,
    }
}

/// A source with in and out swapped in each channel row: the table as the other party sees it.
#[derive(Drop)]
pub struct Turned<S> {
    pub source: S,
}

impl<S: FormSource> FormSource for Turned<S> {
    ghost rows = { λ s. map turn (S.FormSource.rows s.source) };

    ghost lawful = { λ s. turned_laws (S.FormSource.rows s.source) (S.FormSource.lawful s.source) };

    fn count(&self) -> usize {
        self.source.count()
    }

    fn row(&self, number: u8) -> Option<Row> {
        self.source.row(number).map(swapped)
    }
}
