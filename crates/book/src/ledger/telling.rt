// What an open book tells without a change.
ghost use Rattle.std.specs.Prelude.{◌≡◌, ◌*◌, ◌/◌, ◌≤◌, if◌then◌else◌};
ghost use Rattle.sets.specs.Sets.{word};
ghost use Rattle.forms.specs.Limits.{max_rows};
ghost use Rattle.forms.specs.Refusals.Outcome.{gives};
ghost use Rattle.book.specs.Calls.Answer.{looked_up, counted, handed_out};
ghost use Rattle.book.specs.Calls.Call.{look_up, held as count_held, hands_out};
ghost use Rattle.book.specs.Doing.{Done, Told};
ghost use Rattle.book.specs.Faults.{outcome};
ghost use Rattle.book.specs.Ledgers.{ledger_rows, says_yes};
ghost use Rattle.book.specs.Relations.{words_for};
ghost use Rattle.book.specs.declared.types.Verdict.TheVariants.{Yes, No};

use super::super::types::{BookFault, Verdict};
use super::Ledger;
use sets;

// How many numbers a relation over n rows fills.
pub(crate) fn numbers_for(n: usize) -> usize
    requires { n ≤ max_rows }
    ensures is { result ≡ words_for n }
    ensures few { result ≤ max_rows * max_rows / word }
{
    (n * n).div_ceil(sets::WORD)
}

impl Ledger {
    // The verdict that is kept of a pair that is held.
    pub(crate) fn verdict(&self, pair: (u8, u8)) -> Verdict
        ensures { result ≡ (if says_yes self.now pair.0 pair.1 then Yes else No) }
    {
        if self.prepared.relates(&self.yes, pair) {
            Verdict::Yes
        } else {
            Verdict::No
        }
    }

    // The verdict on a pair, if it is held.
    pub(crate) fn look_up(&self, pair: (u8, u8)) -> Result<Option<Verdict>, BookFault>
        ensures { Done self.now (look_up pair.0 pair.1) (looked_up (outcome result)) self.now }
    {
        self.prepared.in_table(pair)?;
        if self.prepared.relates(&self.held, pair) {
            Ok(Some(self.verdict(pair)))
        } else {
            Ok(None)
        }
    }

    // How many pairs are held.
    pub(crate) fn count(&self) -> usize
        ensures { Done self.now count_held (counted (gives result)) self.now }
    {
        sets::count(&self.held)
    }

    // Writes the pairs held as yes, and answers how many they are.
    pub(crate) fn hand_out(&self, buffer: &mut [u64]) -> Result<usize, BookFault>
        ensures { Done self.now (hands_out buffer.old) (handed_out (outcome result) buffer.new) self.now }
    {
        let told = self.told();
        if buffer.len() != told.len() {
            return Err(BookFault::RelationLength);
        }
        buffer.copy_from_slice(told);
        Ok(sets::count(&self.yes))
    }

    // The pairs held as yes, as a relation.
    fn told(&self) -> &[u64]
        ensures { Told self.now result.now }
    {
        &self.yes[..numbers_for(self.prepared.count())]
    }
}
