// Sets of rows: those that something is found of.
ghost use Rattle.std.specs.Prelude.{◌≡◌, ℕ, ◌*◌, ◌<◌, ◌≤◌, true, false, Decides};
ghost use Rattle.std.specs.List.{slice_get};
ghost use Rattle.sets.specs.Sets.{member, word, top};
ghost use Rattle.forms.specs.Rows.{belongs};
ghost use Rattle.forms.specs.Schema.{Offers, Inhabited, IsChannel};
ghost use Rattle.schema.specs.Rules.{OffersVoid};
ghost use Rattle.verdicts.specs.Ready.{in_row, IsElement};
ghost use Rattle.fitting.specs.Fitting.{rows_fitted, Paired};
ghost use Rattle.fitting.specs.Marks.{holds};
ghost use Rattle.verdicts.specs.Tables.{rows_in, count_in};

use forms::Row;
use relation::offering::{ROW_WORDS, has};
use sets;
use verdicts::prepared::Prepared;

// The numbers below n that pass the test, as a set.
// It is private, since it asks that the test may be called, and no public function asks anything of its caller.
pub(crate) fn numbers_where<const W: usize, F: Fn(usize) -> bool>(n: usize, passes: F) -> [u64; W]
    requires callable { (k : ℕ) → k < n → F.pre passes k }
    requires room { (n ≤ word * W) × (n ≤ top) }
    ensures passed { (k : ℕ) → member result k ≡ true → (k < n) × F.post passes k true }
    ensures others { (k : ℕ) → k < n → member result k ≡ false → F.post passes k false }
{
    let mut numbers = [0; W];
    for k in 0..n {
        if passes(k) {
            sets::put(&mut numbers, k);
        }
    }
    numbers
}

// Whether the label belongs to the label set, which is a set of one word.
fn has_label(labels: u64, label: u8) -> bool
    ensures { result ≡ belongs label labels }
{
    sets::test(&[labels], label as usize)
}

// Whether it is an element row with the label, whose inside is marked for one node and whose following for another.
fn holds(marks: &[u64], label: u8, nodes: (u16, u16), row: Option<Row>) -> bool
    ensures { result ≡ holds (in_row marks.now) label nodes.0 nodes.1 row }
{
    match row {
        Some(
            Row::Element {
                labels,
                inside,
                following,
            },
        ) => has_label(labels, label)
            && has(marks, nodes.0, inside)
            && has(marks, nodes.1, following),
        _ => false,
    }
}

// A table, and the pairs of its rows by which references fit.
#[derive(Drop)]
pub(crate) struct Fitting<'a> {
    pub(crate) prepared: &'a Prepared,
    pub(crate) pairs: &'a [u64],
}

impl<'a> Fitting<'a> {
    // The rows that offer a void row.
    pub(crate) fn void_rows(&self) -> [u64; ROW_WORDS]
        ensures { (r : ℕ) → Decides (member result r) (OffersVoid (rows_fitted self.now) r) }
    {
        numbers_where(self.prepared.count(), |r| self.prepared.gives_void(r as u8))
    }

    // The rows that row c is paired with.
    pub(crate) fn paired_rows(&self, c: u8) -> [u64; ROW_WORDS]
        ensures { (d : ℕ) → Decides (member result d) (Paired self.now c d) }
    {
        numbers_where(
            self.prepared.count(),
            |d| self.prepared.relates(self.pairs, (c, d as u8)),
        )
    }

    // The rows that offer one of the channel rows.
    pub(crate) fn channel_rows(&self, some: &[u64]) -> [u64; ROW_WORDS]
        ensures { (r : ℕ) → Decides (member result r) ((d : ℕ) × Offers (rows_fitted self.now) r d × IsChannel (rows_fitted self.now) d × (member some.now d ≡ true)) }
    {
        numbers_where(
            self.prepared.count(),
            |r| self.prepared.channels_of(r as u8).meets(some),
        )
    }

    // The rows that offer one of the inhabited element rows.
    pub(crate) fn element_rows(&self, some: &[u64]) -> [u64; ROW_WORDS]
        ensures { (r : ℕ) → Decides (member result r) ((e : ℕ) × Offers (rows_fitted self.now) r e × Inhabited (rows_fitted self.now) e × IsElement (rows_fitted self.now) e × (member some.now e ≡ true)) }
    {
        numbers_where(
            self.prepared.count(),
            |r| self.prepared.elements_of(r as u8).meets(some),
        )
    }

    // The element rows that have the label and hold the two nodes.
    pub(crate) fn holding_rows(
        &self,
        marks: &[u64],
        label: u8,
        nodes: (u16, u16),
    ) -> [u64; ROW_WORDS]
        ensures { (e : ℕ) → Decides (member result e) (holds (in_row marks.now) label nodes.0 nodes.1 (slice_get (rows_fitted self.now) e) ≡ true) }
    {
        numbers_where(
            self.prepared.count(),
            |e| holds(marks, label, nodes, self.prepared.row(e as u8)),
        )
    }
}
