// What a pair of rows leans on: itself, the pairs that the rules name for it, and what those lean on.
ghost use Rattle.std.specs.Prelude.{◌≡◌, ℕ, ◌*◌, ◌<◌, ◌≤◌, true, false, ◌⊎◌, Some, Decides, MatchOption, MatchResult, IfOk};
ghost use Rattle.std.specs.List.{slice_get};
ghost use Rattle.sets.specs.Sets.{member};
ghost use Rattle.forms.specs.Limits.{max_rows};
ghost use Rattle.schema.specs.Rules.{Below, Included, Leans};
ghost use Rattle.schema.specs.Published.{Subschema};
ghost use Rattle.schema.specs.Theorems.{Confined};
ghost use Rattle.verdicts.specs.Naming.{NamedAt, NamedAmong, NamedWith};
ghost use Rattle.verdicts.specs.Pairs.{place_of, Leaned, InTable};
ghost use Rattle.verdicts.specs.Ready.{in_row};
ghost use Rattle.verdicts.specs.Tables.{rows_in, count_in, related_in};
ghost use Rattle.verdicts.specs.Walking.{Notes, MetBy, Takes, IsAtRest};
ghost use Rattle.verdicts.specs.declared.faults.RowFault.TheVariants.{Outside};

use super::super::faults::RowFault;
use super::super::rowsets::RowSet;
use super::Prepared;
use super::deciding::PAIR_WORDS;
use super::naming::named_by;
use forms::{FormSource, MAX_ROWS, Row};
use relation::offering::{CELL_WORDS, has};
use sets;

// A walk from pairs to the pairs that the rules name for them: those that were gone through, and those that are still to be.
#[derive(Drop)]
struct Walk {
    done: [u64; PAIR_WORDS],
    pending: [u64; PAIR_WORDS],
}

// The sets of one sort, and for which rows and sets of it a walk has noted the pairs that the rules name.
#[derive(Drop)]
struct Met<'a> {
    cells: &'a [u64; CELL_WORDS],
    met: [u64; CELL_WORDS],
}

impl<'a> Met<'a> {
    // The sets of a sort, none of which the walk has met.
    fn of(cells: &'a [u64; CELL_WORDS]) -> Met<'a>
        ensures sets { result.cells.now ≡ cells.now }
        ensures none { (k : ℕ) → member result.met k ≡ false }
    {
        Met {
            cells,
            met: [0; CELL_WORDS],
        }
    }

    // Notes the pairs that the rules name for row c and those in the set of row q, unless that was done before.
    fn name_once(&mut self, prepared: &Prepared, walk: &mut Walk, pair: (u8, u8))
        requires first { pair.0 < max_rows }
        requires second { pair.1 < max_rows }
        requires noted { MetBy (rows_in prepared.now) self.old walk.old }
        ensures pended { Notes (NamedWith (rows_in prepared.now) self.old.cells.now pair.0 pair.1) walk.old walk.new }
        ensures noted { MetBy (rows_in prepared.now) self.new walk.new }
        ensures same { self.new.cells ≡ self.old.cells }
    {
        let (c, q) = pair;
        if !has(&self.met, c as u16, q) {
            prepared.name_row(walk, self.cells, prepared.table.row(c), q);
            sets::put(&mut self.met, c as usize * MAX_ROWS + q as usize);
        }
    }

    // Notes the pairs that the rules name for the rows in the set of row p and those in the set of row q, each row and set once.
    fn name_sets_once(&mut self, prepared: &Prepared, walk: &mut Walk, pair: (u8, u8))
        requires second { pair.1 < max_rows }
        requires noted { MetBy (rows_in prepared.now) self.old walk.old }
        ensures pended { Notes (NamedAmong (rows_in prepared.now) (in_row self.old.cells.now pair.0) (in_row self.old.cells.now pair.1)) walk.old walk.new }
        ensures noted { MetBy (rows_in prepared.now) self.new walk.new }
        ensures same { self.new.cells ≡ self.old.cells }
    {
        let cells = self.cells;
        for c in RowSet::of(cells, pair.0) {
            self.name_once(prepared, walk, (c, pair.1));
        }
    }
}

impl Prepared {
    // Notes a pair as pending, if it is one of rows and not done.
    fn note(&self, walk: &mut Walk, pair: Option<(u8, u8)>)
        ensures { Notes (λ k. place_of (count_in self.now) pair ≡ Some k) walk.old walk.new }
    {
        if let Some(k) = pair.and_then(|pair| self.place(pair)) {
            if !sets::test(&walk.done, k) {
                sets::put(&mut walk.pending, k);
            }
        }
    }

    // Notes the pairs that the rules name for two rows.
    fn name_rows(&self, walk: &mut Walk, c: Option<Row>, d: Option<Row>)
        ensures { Notes (NamedAt (count_in self.now) c d) walk.old walk.new }
    {
        for pair in named_by(c, d) {
            self.note(walk, pair);
        }
    }

    // Notes the pairs that the rules name for a row and those in the set of row q.
    fn name_row(&self, walk: &mut Walk, cells: &[u64; CELL_WORDS], c: Option<Row>, q: u8)
        ensures { Notes (λ k. (d : ℕ) × (in_row cells.now q d ≡ true) × NamedAt (count_in self.now) c (slice_get (rows_in self.now) d) k) walk.old walk.new }
    {
        for d in RowSet::of(cells, q) {
            self.name_rows(walk, c, self.table.row(d));
        }
    }

    // Takes the lowest pair that is pending, which is done from then on.
    fn take_lowest(&self, walk: &mut Walk) -> Option<(u8, u8)>
        ensures { MatchOption result (IsAtRest (count_in self.now) walk.old walk.new) (λ pair. Takes (count_in self.now) pair walk.old walk.new) }
    {
        let k = sets::next(&walk.pending, 0)?;
        let pair = self.pair_at(k)?;
        sets::remove(&mut walk.pending, k);
        sets::put(&mut walk.done, k);
        Some(pair)
    }

    /// The pairs that the pairs of a set lean on.
    pub fn leaned_from(&self, starts: [u64; PAIR_WORDS]) -> [u64; PAIR_WORDS]
        ensures leans { (a b : ℕ) → Decides (related_in self.now result a b) (Leaned (rows_in self.now) starts a b) }
        ensures confined { Confined (rows_in self.now) (related_in self.now result) }
        ensures rest { (k : ℕ) → count_in self.now * count_in self.now ≤ k → member result k ≡ false }
    {
        let mut walk = Walk {
            done: [0; PAIR_WORDS],
            pending: starts,
        };
        let mut links = Met::of(&self.channels);
        let mut parts = Met::of(&self.elements);
        while let Some(pair) = self.take_lowest(&mut walk) {
            links.name_sets_once(self, &mut walk, pair);
            parts.name_sets_once(self, &mut walk, pair);
        }
        walk.done
    }

    // The pair alone, as a set; none, if it is no pair of rows.
    fn alone(&self, pair: (u8, u8)) -> [u64; PAIR_WORDS]
        ensures { (k : ℕ) → Decides (member result k) (place_of (count_in self.now) (Some pair) ≡ Some k) }
    {
        let mut pairs = [0; PAIR_WORDS];
        if let Some(k) = self.place(pair) {
            sets::put(&mut pairs, k);
        }
        pairs
    }

    /// The pairs that a pair of rows leans on: itself, those that the rules name for it, and what those lean on. None, if it is no pair of rows.
    pub fn leaned(&self, pair: (u8, u8)) -> [u64; PAIR_WORDS]
        ensures leans { pair.0 < count_in self.now → pair.1 < count_in self.now → (a b : ℕ) → Decides (related_in self.now result a b) (Leans (rows_in self.now) pair.0 pair.1 a b) }
        ensures confined { Confined (rows_in self.now) (related_in self.now result) }
        ensures outside { (count_in self.now ≤ pair.0) ⊎ (count_in self.now ≤ pair.1) → (k : ℕ) → member result k ≡ false }
        ensures rest { (k : ℕ) → count_in self.now * count_in self.now ≤ k → member result k ≡ false }
    {
        self.leaned_from(self.alone(pair))
    }

    /// Whether the first row of a pair is below the second, told from the pairs that it leans on alone: whether every document that fits the first fits the second. Refused as 21, if it is no pair of rows.
    pub fn below(&self, pair: (u8, u8)) -> Result<bool, RowFault>
        ensures rows { MatchResult result (λ _. InTable (rows_in self.now) pair.0 pair.1) (λ e. (e ≡ Outside) × (InTable (rows_in self.now) pair.0 pair.1 → ⊥)) }
        ensures below { IfOk result (λ yes. Decides yes (Below (rows_in self.now) pair.0 pair.1)) }
        ensures included { IfOk result (λ yes. Decides yes (Included (rows_in self.now) pair.0 pair.1)) }
        ensures published { IfOk result (λ yes. Decides yes (Subschema (rows_in self.now) pair.0 pair.1)) }
    {
        self.in_table(pair)?;
        let mut pairs = self.leaned(pair);
        self.narrow(&mut pairs);
        Ok(self.relates(&pairs, pair))
    }
}
