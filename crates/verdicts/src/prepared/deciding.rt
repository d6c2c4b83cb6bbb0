// Which rows are below which: the largest set of pairs that all keep the rules within it.
ghost use Rattle.std.specs.Prelude.{◌≡◌, ℕ, ◌*◌, ◌<◌, ◌≤◌, true, false, Decides, nat_lt};
ghost use Rattle.sets.specs.Sets.{member};
ghost use Rattle.schema.specs.Rules.{Below, Included};
ghost use Rattle.schema.specs.Theorems.{LargestWithin, Confined, BelowLaws};
ghost use Rattle.schema.specs.Published.{Subschema};
ghost use Rattle.schema.specs.Worked.{WorkedCases};
ghost use Rattle.verdicts.specs.Asking.{asks, asks_lawful};
ghost use Rattle.verdicts.specs.Facts.{bounded_of};
ghost use Rattle.verdicts.specs.Pairs.{all_pairs, Tells, Witnessed, Transitive};
ghost use Rattle.verdicts.specs.Tables.{rows_in, count_in, related_in};

use super::Prepared;
use forms::MAX_ROWS;
use narrowing;
use narrowing::Rule;
use sets;

/// A set of pairs of rows has so many words. The pair (p, q) of n rows is bit p × n + q.
pub const PAIR_WORDS: usize = MAX_ROWS * MAX_ROWS / sets::WORD;

// The rule of the pairs that keep the rules within a set.
#[derive(Drop)]
struct Keeping<'a> {
    prepared: &'a Prepared,
}

impl<'a> Rule for Keeping<'a> {
    ghost says = { λ s. asks (rows_in s.prepared.now) (bounded_of s.prepared.now) };

    ghost lawful = { λ s. asks_lawful (rows_in s.prepared.now) (bounded_of s.prepared.now) };

    fn ask(&self, place: usize, set: &[u64]) -> bool {
        match self.prepared.pair_at(place) {
            Some(pair) => self.prepared.keeps(pair, set),
            None => true,
        }
    }
}

impl Prepared {
    // All pairs of rows.
    fn square(&self) -> [u64; PAIR_WORDS]
        ensures { (k : ℕ) → member result k ≡ nat_lt k (count_in self.now * count_in self.now) }
    {
        let n = self.count();
        sets::first(n * n)
    }

    /// Leaves of a set of pairs its largest part all pairs of which keep the rules within it. Places that are no pair's stay.
    pub fn narrow(&self, pairs: &mut [u64])
        ensures largest { LargestWithin (rows_in self.now) (related_in self.now pairs.old) (related_in self.now pairs.new) }
        ensures confined { Confined (rows_in self.now) (related_in self.now pairs.old) → (p q : ℕ) → related_in self.now pairs.old p q ≡ true → Decides (related_in self.now pairs.new p q) (Below (rows_in self.now) p q) }
        ensures rest { (k : ℕ) → count_in self.now * count_in self.now ≤ k → member pairs.new k ≡ member pairs.old k }
    {
        narrowing::narrow(&Keeping { prepared: self }, pairs);
    }

    /// Of each pair of rows, whether the first is below the second: whether every document that fits the first fits the second. Of each pair for which that is not so, some document shows it.
    pub fn verdicts(&self) -> [u64; PAIR_WORDS]
        ensures below { Tells (rows_in self.now) (related_in self.now result) (Below (rows_in self.now)) }
        ensures largest { LargestWithin (rows_in self.now) (all_pairs (count_in self.now)) (related_in self.now result) }
        ensures included { Tells (rows_in self.now) (related_in self.now result) (Included (rows_in self.now)) }
        ensures published { Tells (rows_in self.now) (related_in self.now result) (Subschema (rows_in self.now)) }
        ensures witness { Witnessed (rows_in self.now) (related_in self.now result) }
        ensures reflexive { (p : ℕ) → p < count_in self.now → related_in self.now result p p ≡ true }
        ensures transitive { Transitive (related_in self.now result) }
        ensures rest { (k : ℕ) → count_in self.now * count_in self.now ≤ k → member result k ≡ false }
        ensures laws { BelowLaws }
        ensures worked { WorkedCases }
    {
        let mut pairs = self.square();
        self.narrow(&mut pairs);
        pairs
    }
}
