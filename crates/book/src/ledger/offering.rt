// Opening, clearing, and taking in relations that others found.
ghost use Rattle.std.specs.Prelude.{◌≡◌, ℕ, ◌*◌, ◌≤◌, false, length, Decides, MatchOption};
ghost use Rattle.forms.specs.Refusals.Outcome.{gives};
ghost use Rattle.sets.specs.Sets.{member};
ghost use Rattle.schema.specs.Rules.{Closed};
ghost use Rattle.verdicts.specs.Pairs.{related};
ghost use Rattle.book.specs.Calls.Answer.{offered, cleared};
ghost use Rattle.book.specs.Calls.Call.{offer, clear as wipe};
ghost use Rattle.book.specs.Doing.{Done};
ghost use Rattle.book.specs.Faults.{outcome};
ghost use Rattle.book.specs.Ledgers.{ledger_rows, holds};
ghost use Rattle.book.specs.Relations.{Breaks, Stands};

use super::super::types::BookFault;
use super::Ledger;
use super::telling::numbers_for;
use sets;
use sets::Members;
use verdicts::prepared::Prepared;
use verdicts::prepared::deciding::PAIR_WORDS;

impl Ledger {
    // An open book over a table, which holds no pair.
    pub(crate) fn open(prepared: Prepared) -> Ledger
        ensures table { result.prepared ≡ prepared }
        ensures none { (a b : ℕ) → holds result a b ≡ false }
    {
        Ledger {
            prepared,
            held: [0; PAIR_WORDS],
            yes: [0; PAIR_WORDS],
            settled: [0; PAIR_WORDS],
        }
    }

    // Holds no pair any more.
    pub(crate) fn clear(&mut self)
        ensures { Done self.old wipe (cleared (gives tt)) self.new }
    {
        self.held = [0; PAIR_WORDS];
        self.yes = [0; PAIR_WORDS];
        self.settled = [0; PAIR_WORDS];
    }

    // Whether the pair at a place, if there is one, keeps the rules within a relation.
    fn stands(&self, place: usize, relation: &[u64]) -> bool
        ensures { Decides result (Stands (ledger_rows self.now) relation.now place) }
    {
        self.prepared
            .pair_at(place)
            .is_none_or(|pair| self.prepared.keeps(pair, relation))
    }

    // The lowest pair of a relation that breaks the rules within it.
    fn breaking(&self, relation: &[u64]) -> Option<(u8, u8)>
        ensures { MatchOption result (Closed (ledger_rows self.now) (related (length (ledger_rows self.now)) relation.now)) (λ pair. Breaks (ledger_rows self.now) relation.now pair.0 pair.1) }
    {
        let k = Members::of(relation).find(|k| !self.stands(*k, relation))?;
        self.prepared.pair_at(k)
    }

    // Holds the pairs of a relation as yes, if it is well shaped and they keep the rules within it, and answers how many are new.
    pub(crate) fn offer(&mut self, relation: &[u64]) -> Result<usize, BookFault>
        ensures { Done self.old (offer relation.now) (offered (outcome result)) self.new }
    {
        let n = self.prepared.count();
        if relation.len() != numbers_for(n) {
            return Err(BookFault::RelationLength);
        }
        if sets::next(relation, n * n).is_some() {
            return Err(BookFault::BitOutside);
        }
        if let Some((p, q)) = self.breaking(relation) {
            return Err(BookFault::RuleBroken { p, q });
        }
        sets::join(&mut self.yes, relation);
        Ok(sets::join(&mut self.held, relation))
    }
}
