// Making nodes one after another, until the asked pair has one.
ghost use Rattle.std.specs.Prelude.{◌≡◌, ◌+◌, ◌<◌, ◌≤◌, true, length, take, drop, replicate, ◌≢◌, slice_set, Some, None};
ghost use Rattle.documents.specs.Limits.{max_nodes};
ghost use Rattle.showing.specs.Drawing.{Holds, Visited, Rounded};
ghost use Rattle.showing.specs.Questions.{rows_asked, leaned_in, below_in};
ghost use Rattle.showing.specs.Showing.{Witnesses, places};

use super::super::most_nodes;
use super::drafts::pair_place;
use super::{Drawn, Question};
use documents::nodes::{MAX_NODES, Node};

impl Drawn {
    // Nothing has a node.
    fn none() -> Drawn
        ensures used { result.used ≡ 0 }
        ensures numbers { result.numbers ≡ replicate max_nodes None }
    {
        Drawn {
            used: 0,
            numbers: [None; MAX_NODES],
        }
    }

    // One node more, for a place.
    fn add(&mut self, nodes: &mut [Node], place: usize, node: Node)
        requires number { self.old.used < max_nodes }
        requires room { self.old.used < length nodes.old }
        requires within { place < max_nodes }
        ensures nodes { nodes.new ≡ slice_set nodes.old self.old.used node }
        ensures used { self.new.used ≡ self.old.used + 1 }
        ensures numbers { self.new.numbers ≡ slice_set self.old.numbers place (Some self.old.used) }
    {
        nodes[self.used] = node;
        self.numbers[place] = Some(self.used as u16);
        self.used += 1;
    }

    // Makes a node for a place, if it has none and one can be made.
    fn visit(&mut self, question: &Question, nodes: &mut [Node], place: usize) -> bool
        requires holds { Holds (rows_asked question.now) (below_in question.now) nodes.old self.old.used self.old.numbers }
        requires within { place < places (rows_asked question.now) }
        ensures { Visited (rows_asked question.now) (leaned_in question.now) (below_in question.now) place nodes.old nodes.new self.old.used self.new.used self.old.numbers self.new.numbers result }
    {
        if self.node(place).is_some() {
            return false;
        }
        let Some(node) = self.draft(question, place) else {
            return false;
        };
        self.add(nodes, place, node);
        true
    }

    // Visits all places but one.
    fn round(&mut self, question: &Question, nodes: &mut [Node], but: usize)
        requires holds { Holds (rows_asked question.now) (below_in question.now) nodes.old self.old.used self.old.numbers }
        ensures { Rounded (rows_asked question.now) (leaned_in question.now) (below_in question.now) but (places (rows_asked question.now)) nodes.old nodes.new self.old.used self.new.used self.old.numbers self.new.numbers }
    {
        for k in 0..most_nodes(question.prepared) {
            if k != but {
                self.visit(question, nodes, k);
            }
        }
    }
}

// Makes nodes until the pair has one, which is then the last.
pub(crate) fn draw(question: &Question, pair: (u8, u8), nodes: &mut [Node]) -> usize
    requires leans { (leaned_in question.now) pair.0 pair.1 ≡ true }
    requires apart { (below_in question.now) pair.0 pair.1 ≢ true }
    requires room { places (rows_asked question.now) ≤ length nodes.old }
    ensures few { result ≤ places (rows_asked question.now) }
    ensures shows { Witnesses (rows_asked question.now) pair.0 pair.1 (take result nodes.new) }
    ensures rest { drop result nodes.new ≡ drop result nodes.old }
    ensures same { length nodes.new ≡ length nodes.old }
{
    let asked = pair_place(question.prepared, pair);
    let mut drawn = Drawn::none();
    while !drawn.visit(question, nodes, asked) {
        drawn.round(question, nodes, asked);
    }
    drawn.used
}
