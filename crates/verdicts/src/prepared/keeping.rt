// Whether a pair of rows keeps the rules within a set of pairs.
ghost use Rattle.std.specs.Prelude.{◌≡◌, ℕ, ◌<◌, ◌≤◌, true, Decides};
ghost use Rattle.std.specs.List.{slice_get};
ghost use Rattle.forms.specs.Limits.{max_rows};
ghost use Rattle.forms.specs.Rows.{belongs};
ghost use Rattle.schema.specs.Rules.{OffersVoid, Keeps};
ghost use Rattle.verdicts.specs.Reading.{LabelledBy, ChannelTaken};
ghost use Rattle.verdicts.specs.Ready.{in_row};
ghost use Rattle.verdicts.specs.Tests.{capable, takes, agrees_at, agrees};
ghost use Rattle.verdicts.specs.Tables.{rows_in, count_in, related_in};
ghost use Rattle.verdicts.specs.Within.{rows_within, relation_of};

use super::super::rowsets::RowSet;
use super::Prepared;
use forms::{Capability, FormSource, Row};
use relation::admission::meets;
use relation::offering::has;
use sets;

// Whether all labels of one set are in the other.
fn covers(all: u64, some: u64) -> bool
    ensures { Decides result ((x : ℕ) → belongs x some ≡ true → belongs x all ≡ true) }
{
    all | some == all
}

// A table, and a set of its pairs within which the rules are asked.
#[derive(Drop)]
struct Within<'a> {
    prepared: &'a Prepared,
    pairs: &'a [u64],
}

impl<'a> Within<'a> {
    // Whether the set has the pair.
    fn relates(&self, pair: (u8, u8)) -> bool
        ensures { result ≡ relation_of self.now pair.0 pair.1 }
    {
        self.prepared.relates(self.pairs, pair)
    }

    // Whether a channel is below another: both is at most in and at most out, payloads of in channels compare forward, those of out channels backward, and of both both ways.
    // The rule stands here as one match of the two capabilities, a guard for each direction of the payloads s and t, so that it is read, and checked against the rules, at one glance. The pairs that `naming` lists say what a pair leans on, and do not decide it.
    fn channel_below(&self, c: (Capability, u8), d: (Capability, u8)) -> bool
        ensures { result ≡ capable c.0 d.0 (relation_of self.now c.1 d.1) (relation_of self.now d.1 c.1) }
    {
        let (s, t) = (c.1, d.1);
        match (c.0, d.0) {
            (Capability::In | Capability::Both, Capability::In) if self.relates((s, t)) => true,
            (Capability::Out | Capability::Both, Capability::Out) if self.relates((t, s)) => true,
            (Capability::Both, Capability::Both) if self.relates((s, t)) && self.relates((t, s)) =>
                true,
            _ => false,
        }
    }

    // Whether row d is a channel row that the channel is below.
    fn takes(&self, c: (Capability, u8), d: u8) -> bool
        ensures { result ≡ takes (relation_of self.now) c.0 c.1 (slice_get (rows_within self.now) d) }
    {
        match self.prepared.table.row(d) {
            Some(Row::Channel(capability, payload)) => self.channel_below(c, (capability, payload)),
            _ => false,
        }
    }

    // Whether the parts of an element row are below those of row f, if that is an element row with a common label.
    fn agrees_at(&self, labels: u64, parts: (u8, u8), f: u8) -> bool
        ensures { result ≡ agrees_at (relation_of self.now) labels parts.0 parts.1 (slice_get (rows_within self.now) f) }
    {
        match self.prepared.table.row(f) {
            Some(
                Row::Element {
                    labels: other,
                    inside,
                    following,
                },
            ) => !meets(labels, other)
                || (self.relates((parts.0, inside)) && self.relates((parts.1, following))),
            _ => true,
        }
    }

    // Whether a row, if it is an element row, agrees so with row f.
    fn agrees(&self, row: Option<Row>, f: u8) -> bool
        ensures { result ≡ agrees (relation_of self.now) row (slice_get (rows_within self.now) f) }
    {
        match row {
            Some(
                Row::Element {
                    labels,
                    inside,
                    following,
                },
            ) => self.agrees_at(labels, (inside, following), f),
            _ => true,
        }
    }

    // Whether the channel in the first row of a pair is below a channel row that the second offers. The first row itself is the likeliest, and is asked first.
    fn taken(&self, c: (Capability, u8), pair: (u8, u8)) -> bool
        ensures { Decides result ((d : ℕ) × (in_row self.now.prepared.now.channels pair.1 d ≡ true) × (takes (relation_of self.now) c.0 c.1 (slice_get (rows_within self.now) d) ≡ true)) }
    {
        if has(&self.prepared.channels, pair.1 as u16, pair.0) && self.takes(c, pair.0) {
            return true;
        }
        RowSet::of(&self.prepared.channels, pair.1).any(|d| self.takes(c, d))
    }

    // Whether the first row of a pair, if it is a channel row, is below a channel row that the second offers.
    fn takes_channel(&self, pair: (u8, u8)) -> bool
        ensures { Decides result (ChannelTaken (rows_within self.now) (relation_of self.now) pair.0 pair.1) }
    {
        match self.prepared.table.row(pair.0) {
            Some(Row::Channel(capability, payload)) => self.taken((capability, payload), pair),
            _ => true,
        }
    }

    // Whether each channel row that the first row of a pair offers is below one that the second offers.
    fn rows_taken(&self, pair: (u8, u8)) -> bool
        ensures { Decides result ((c : ℕ) → in_row self.now.prepared.now.channels pair.0 c ≡ true → ChannelTaken (rows_within self.now) (relation_of self.now) c pair.1) }
    {
        RowSet::of(&self.prepared.channels, pair.0).all(|c| self.takes_channel((c, pair.1)))
    }

    // Whether a row agrees with all inhabited element rows that row q offers.
    fn row_agrees(&self, row: Option<Row>, q: u8) -> bool
        ensures { Decides result ((f : ℕ) → in_row self.now.prepared.now.elements q f ≡ true → agrees (relation_of self.now) row (slice_get (rows_within self.now) f) ≡ true) }
    {
        RowSet::of(&self.prepared.elements, q).all(|f| self.agrees(row, f))
    }

    // Whether the first row of a pair agrees with all inhabited element rows that the second offers. If it is one of them, no other has a label in common with it.
    fn element_agrees(&self, pair: (u8, u8)) -> bool
        ensures { Decides result ((f : ℕ) → in_row self.now.prepared.now.elements pair.1 f ≡ true → agrees (relation_of self.now) (slice_get (rows_within self.now) pair.0) (slice_get (rows_within self.now) f) ≡ true) }
    {
        let row = self.prepared.table.row(pair.0);
        if has(&self.prepared.elements, pair.1 as u16, pair.0) {
            return self.agrees(row, pair.0);
        }
        self.row_agrees(row, pair.1)
    }

    // Whether each inhabited element row that the first row of a pair offers agrees with all that the second offers.
    fn rows_agree(&self, pair: (u8, u8)) -> bool
        ensures { Decides result ((e : ℕ) → in_row self.now.prepared.now.elements pair.0 e ≡ true → (f : ℕ) → in_row self.now.prepared.now.elements pair.1 f ≡ true → agrees (relation_of self.now) (slice_get (rows_within self.now) e) (slice_get (rows_within self.now) f) ≡ true) }
    {
        RowSet::of(&self.prepared.elements, pair.0).all(|e| self.element_agrees((e, pair.1)))
    }

    // Whether the pair keeps the rules for channel rows, and agrees in its element rows.
    fn parts_kept(&self, pair: (u8, u8)) -> bool
        ensures { Decides result (((c : ℕ) → in_row self.now.prepared.now.channels pair.0 c ≡ true → ChannelTaken (rows_within self.now) (relation_of self.now) c pair.1) × ((e : ℕ) → in_row self.now.prepared.now.elements pair.0 e ≡ true → (f : ℕ) → in_row self.now.prepared.now.elements pair.1 f ≡ true → agrees (relation_of self.now) (slice_get (rows_within self.now) e) (slice_get (rows_within self.now) f) ≡ true)) }
    {
        self.rows_taken(pair) && self.rows_agree(pair)
    }
}

impl Prepared {
    /// How many rows there are: at least one, and at most `MAX_ROWS`.
    pub fn count(&self) -> usize
        ensures is { result ≡ count_in self.now }
        ensures some { 0 < result }
        ensures few { result ≤ max_rows }
    {
        self.table.count()
    }

    /// Whether the set of pairs has the pair: the bit of its place is set. No, if it is no pair of rows.
    pub fn relates(&self, pairs: &[u64], pair: (u8, u8)) -> bool
        ensures { result ≡ related_in self.now pairs.now pair.0 pair.1 }
    {
        self.place(pair).is_some_and(|k| sets::test(pairs, k))
    }

    /// Whether the first row of a pair, if it is a channel row, is below a channel row that the second offers, within the set of pairs. Yes, if it is no channel row.
    pub fn takes_channel(&self, pairs: &[u64], pair: (u8, u8)) -> bool
        ensures { Decides result (ChannelTaken (rows_in self.now) (related_in self.now pairs.now) pair.0 pair.1) }
    {
        let within = Within {
            prepared: self,
            pairs,
        };
        within.takes_channel(pair)
    }

    // Whether the second row of a pair offers a void row if the first does.
    fn voids_kept(&self, pair: (u8, u8)) -> bool
        ensures { Decides result (OffersVoid (rows_in self.now) pair.0 → OffersVoid (rows_in self.now) pair.1) }
    {
        !self.gives_void(pair.0) || self.gives_void(pair.1)
    }

    // Whether it does, and has each label of the inhabited element rows that the first offers.
    fn offers_kept(&self, pair: (u8, u8)) -> bool
        ensures { Decides result ((OffersVoid (rows_in self.now) pair.0 → OffersVoid (rows_in self.now) pair.1) × ((x : ℕ) → LabelledBy (rows_in self.now) pair.0 x → LabelledBy (rows_in self.now) pair.1 x)) }
    {
        self.voids_kept(pair) && covers(self.labels(pair.1), self.labels(pair.0))
    }

    /// Whether the pair keeps the rules within the set of pairs. A number outside the table offers nothing, so that as first row it keeps them.
    pub fn keeps(&self, pair: (u8, u8), pairs: &[u64]) -> bool
        ensures { Decides result (Keeps (rows_in self.now) (related_in self.now pairs.now) pair.0 pair.1) }
    {
        let within = Within {
            prepared: self,
            pairs,
        };
        self.offers_kept(pair) && within.parts_kept(pair)
    }
}
