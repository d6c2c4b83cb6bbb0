// Settling pairs: all that they lean on is held then.
ghost use Rattle.std.specs.Prelude.{◌≡◌, ℕ, ◌*◌, ◌<◌, ◌≤◌, true, false, length};
ghost use Rattle.schema.specs.Theorems.{Confined};
ghost use Rattle.sets.specs.Sets.{member};
ghost use Rattle.verdicts.specs.Pairs.{related};
ghost use Rattle.book.specs.Calls.Answer.{asked};
ghost use Rattle.book.specs.Calls.Call.{ask};
ghost use Rattle.book.specs.Doing.{Done};
ghost use Rattle.book.specs.Faults.{outcome};
ghost use Rattle.book.specs.Keeping.{Grew};
ghost use Rattle.book.specs.Ledgers.{ledger_rows};

use super::super::types::{BookFault, Verdict};
use super::Ledger;
use sets;
use verdicts::prepared::deciding::PAIR_WORDS;

impl Ledger {
    // Holds the pairs of a set that the rules do not lead out of, and answers how many are new.
    pub(crate) fn settle(&mut self, pairs: [u64; PAIR_WORDS]) -> usize
        requires confined { Confined (ledger_rows self.old) (related (length (ledger_rows self.old)) pairs) }
        requires clear { (k : ℕ) → length (ledger_rows self.old) * length (ledger_rows self.old) ≤ k → member pairs k ≡ false }
        ensures table { self.new.prepared ≡ self.old.prepared }
        ensures grew { Grew (ledger_rows self.old) (λ a b. related (length (ledger_rows self.old)) pairs a b ≡ true) self.old.held self.new.held result }
    {
        let mut below = pairs;
        self.prepared.narrow(&mut below);
        sets::join(&mut self.yes, &below);
        sets::join(&mut self.settled, &pairs);
        sets::join(&mut self.held, &pairs)
    }

    // Whether all that a pair of rows leans on is held.
    fn has_settled(&self, pair: (u8, u8)) -> bool
        ensures { result ≡ related (length (ledger_rows self.now)) self.now.settled pair.0 pair.1 }
    {
        self.prepared.relates(&self.settled, pair)
    }

    // Whether the first row of a pair is below the second, and how many pairs are new. If all that it leans on is held already, nothing is to be done.
    pub(crate) fn ask(&mut self, pair: (u8, u8)) -> Result<(Verdict, usize), BookFault>
        ensures { Done self.old (ask pair.0 pair.1) (asked (outcome result)) self.new }
    {
        if self.has_settled(pair) {
            return Ok((self.verdict(pair), 0));
        }
        self.prepared.in_table(pair)?;
        let leaned = self.prepared.leaned(pair);
        let new = self.settle(leaned);
        Ok((self.verdict(pair), new))
    }
}
