// Fitting document tables to the rows of an open book.
ghost use Rattle.std.specs.Prelude.{◌≡◌, ℕ, ◌*◌, ◌≤◌, true, false, length, Decides, MatchResult};
ghost use Rattle.sets.specs.Sets.{member};
ghost use Rattle.fitting.specs.Faults.{fit_refusal};
ghost use Rattle.fitting.specs.Fittable.{Fittable, Unfit};
ghost use Rattle.verdicts.specs.Pairs.{Leaned};
ghost use Rattle.book.specs.Calls.Answer.{fitted};
ghost use Rattle.book.specs.Calls.Call.{fit};
ghost use Rattle.book.specs.Doing.{Done};
ghost use Rattle.book.specs.Faults.{outcome};
ghost use Rattle.book.specs.Keeping.{Grew};
ghost use Rattle.book.specs.Ledgers.{ledger_rows};

use super::super::types::BookFault;
use super::Ledger;
use fitting::checking::check;
use fitting::faults::FitFault;
use fitting::marking::mark;
use fitting::order::Order;
use fitting::wanting::wanted;
use sets;
use sets::Members;
use verdicts::prepared::deciding::PAIR_WORDS;

impl Ledger {
    // Whether all that the pairs of a set lean on is held already.
    fn is_settled(&self, pairs: &[u64]) -> bool
        ensures { Decides result ((k : ℕ) → member pairs.now k ≡ true → member self.now.settled k ≡ true) }
    {
        Members::of(pairs).all(|k| sets::test(&self.settled, k))
    }

    // Holds all that the pairs of a set lean on, and answers how many pairs are new.
    fn settle_all(&mut self, pairs: [u64; PAIR_WORDS]) -> usize
        ensures table { self.new.prepared ≡ self.old.prepared }
        ensures grew { Grew (ledger_rows self.old) (Leaned (ledger_rows self.old) pairs) self.old.held self.new.held result }
    {
        if self.is_settled(&pairs) {
            return 0;
        }
        let leaned = self.prepared.leaned_from(pairs);
        self.settle(leaned)
    }

    // Nothing, if an order can be fitted to the row; else why not. The whole ledger is lent to it, so that a refused fit shows at once that it changes nothing.
    fn fittable(&self, order: &Order, row: u8, marks: usize) -> Result<(), FitFault>
        ensures { MatchResult result (λ _. Fittable (ledger_rows self.now) order.now.nodes.now order.now.root row marks) (λ e. Unfit (ledger_rows self.now) order.now.nodes.now order.now.root row marks (fit_refusal e)) }
    {
        check(&self.prepared, order, row, marks)
    }

    // Settles each pair of a referenced row and a channel row, and then marks for each node the rows that it fits.
    pub(crate) fn fit(
        &mut self,
        order: &Order,
        row: u8,
        marks: &mut [u64],
    ) -> Result<(bool, usize), BookFault>
        ensures { Done self.old (fit order.now.nodes.now order.now.root row marks.old) (fitted (outcome result) marks.new) self.new }
    {
        self.fittable(order, row, marks.len())?;
        let pairs = wanted(&self.prepared, order.nodes);
        let new = self.settle_all(pairs);
        let fits = mark(&self.prepared, &self.yes, order, row, marks)?;
        Ok((fits, new))
    }
}
