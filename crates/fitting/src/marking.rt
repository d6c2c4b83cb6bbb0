// Marking, for each node of a table, the rows that it fits.
ghost use Rattle.std.specs.Prelude.{◌≡◌, ℕ, ◌+◌, ◌*◌, ◌<◌, ◌≤◌, length, IfOk, if◌then◌else◌, Decides, MatchResult, nat_eq};
ghost use Rattle.sets.specs.Sets.{member};
ghost use Rattle.forms.specs.Limits.{max_rows};
ghost use Rattle.documents.specs.Limits.{max_nodes};
ghost use Rattle.documents.specs.Nodes.{SoundOver};
ghost use Rattle.relation.specs.Cells.{cell};
ghost use Rattle.schema.specs.Fitting.{FitsIsByBelow};
ghost use Rattle.schema.specs.Rules.{OffersVoid};
ghost use Rattle.verdicts.specs.Ready.{in_row};
ghost use Rattle.fitting.specs.Faults.{fit_refusal};
ghost use Rattle.fitting.specs.Fittable.{row_words, Fittable, Unfit};
ghost use Rattle.fitting.specs.Fitting.{rows_fitted, Paired};
ghost use Rattle.fitting.specs.Marks.{Among, FitsNode, Marked, TellsRoot};
ghost use Rattle.verdicts.specs.Tables.{rows_in, count_in};

use super::checking::check;
use super::faults::FitFault;
use super::order::Order;
use super::rows::Fitting;
use documents::nodes::Node;
use relation::offering::{ROW_WORDS, has};
use verdicts::prepared::Prepared;

// Makes the rows the marks of the node.
fn write_marks(marks: &mut [u64], node: usize, rows: &[u64; ROW_WORDS])
    requires few { node < max_nodes }
    requires room { node * row_words + row_words ≤ length marks.old }
    ensures { (q o : ℕ) → o < max_rows → cell marks.new q o ≡ (if nat_eq q node then member rows.now o else cell marks.old q o) }
{
    let first = node * ROW_WORDS;
    marks[first..first + ROW_WORDS].copy_from_slice(rows);
}

impl<'a> Fitting<'a> {
    // The rows that a node fits, where the marks tell it of lower nodes, and the rows that offer a void row are given: a table may have many void nodes, and they all fit these.
    fn node_rows(&self, voids: [u64; ROW_WORDS], marks: &[u64], node: Node) -> [u64; ROW_WORDS]
        requires { (r : ℕ) → Decides (member voids r) (OffersVoid (rows_fitted self.now) r) }
        ensures { (r : ℕ) → Decides (member result r) (FitsNode (rows_fitted self.now) (Paired self.now) (in_row marks.now) node r) }
    {
        match node {
            Node::Void => voids,
            Node::Reference(row) => self.channel_rows(&self.paired_rows(row)),
            Node::Element {
                label,
                inside,
                following,
            } => self.element_rows(&self.holding_rows(marks, label, (inside, following))),
        }
    }

    // Marks for each node the rows that it fits.
    fn mark_nodes(&self, nodes: &[Node], marks: &mut [u64])
        requires few { length nodes.now ≤ max_nodes }
        requires sound { SoundOver (rows_fitted self.now) nodes.now }
        requires room { length marks.old ≡ length nodes.now * row_words }
        ensures { Marked (rows_fitted self.now) (Paired self.now) nodes.now marks.new }
    {
        let voids = self.void_rows();
        for (i, node) in nodes.iter().enumerate() {
            let rows = self.node_rows(voids, marks, *node);
            write_marks(marks, i, &rows);
        }
    }
}

/// Marks for each node the rows that its document fits, where a reference fits by the given pairs of rows (a relation of n rows:
/// the pair of a and b is bit a × n + b), and tells whether the root fits the row.
///
/// It fills the caller's slice in place, `ROW_WORDS` words a node, and nothing else: bit r of the words of node i is set exactly if
/// node i fits row r. A refusal, which is 21, 30, 31, 32 or 33, the first that holds (`Unfit`), leaves the slice unchanged.
pub fn mark(
    prepared: &Prepared,
    pairs: &[u64],
    order: &Order,
    row: u8,
    marks: &mut [u64],
) -> Result<bool, FitFault>
    ensures checked { MatchResult result (λ _. Fittable (rows_in prepared.now) order.now.nodes.now order.now.root row (length marks.old)) (λ e. Unfit (rows_in prepared.now) order.now.nodes.now order.now.root row (length marks.old) (fit_refusal e)) }
    ensures marked { MatchResult result (λ _. Marked (rows_in prepared.now) (Among (count_in prepared.now) pairs.now) order.now.nodes.now marks.new) (λ _. marks.new ≡ marks.old) }
    ensures told { IfOk result (TellsRoot (rows_in prepared.now) (Among (count_in prepared.now) pairs.now) order.now.nodes.now order.now.root row) }
    ensures by_below { FitsIsByBelow }
    ensures length { length marks.new ≡ length marks.old }
{
    check(prepared, order, row, marks.len())?;
    let fitting = Fitting { prepared, pairs };
    fitting.mark_nodes(order.nodes, marks);
    Ok(has(marks, order.root as u16, row))
}
