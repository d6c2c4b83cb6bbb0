// Showing an order for a pair that is held as no.
ghost use Rattle.std.specs.Prelude.{List, MatchResult};
ghost use Rattle.forms.specs.Refusals.Outcome.{refuses};
ghost use Rattle.documents.specs.declared.nodes.Node.{Node};
ghost use Rattle.verdicts.specs.Pairs.{InTable};
ghost use Rattle.book.specs.Answers.{HeldAsNo};
ghost use Rattle.book.specs.Calls.Answer.{shown};
ghost use Rattle.book.specs.Calls.Call.{show};
ghost use Rattle.book.specs.Doing.{Done};
ghost use Rattle.book.specs.Faults.{book_refusal, outcome};
ghost use Rattle.book.specs.Ledgers.{ledger_rows, Holds};

use super::super::types::{BookFault, Verdict};
use super::Ledger;
use documents::nodes::Node;
use showing;
use showing::faults::ShowFault;

impl Ledger {
    // Whether a pair is held as no, or why no order is shown for it.
    fn held_as_no(&self, pair: (u8, u8)) -> Result<(), BookFault>
        ensures { MatchResult result (λ _. InTable (ledger_rows self.now) pair.0 pair.1 × HeldAsNo (ledger_rows self.now) (Holds self.now) pair.0 pair.1) (λ e. (buffer : List Node) → Done self.now (show pair.0 pair.1 buffer) (shown (refuses (book_refusal e)) buffer) self.now) }
    {
        match self.look_up(pair)? {
            Some(Verdict::No) => Ok(()),
            Some(Verdict::Yes) | None => Err(BookFault::NotShown(ShowFault::NotNo)),
        }
    }

    // Writes an order that fits the first row of a pair held as no and not the second, and answers how many nodes it has.
    pub(crate) fn show(&self, pair: (u8, u8), nodes: &mut [Node]) -> Result<usize, BookFault>
        ensures { Done self.now (show pair.0 pair.1 nodes.old) (shown (outcome result) nodes.new) self.now }
    {
        self.held_as_no(pair)?;
        // The verdict is kept, so that a buffer that is too short is refused without deciding the pair again.
        if nodes.len() < showing::most_nodes(&self.prepared) {
            return Err(BookFault::NotShown(ShowFault::FewNodes));
        }
        Ok(showing::show(&self.prepared, pair, nodes)?)
    }
}
