// Whether a table of nodes can be fitted.
ghost use Rattle.std.specs.Prelude.{◌≡◌, ◌<◌, ◌≤◌, Decides, MatchOption, MatchResult};
ghost use Rattle.forms.specs.Places.{Lowest};
ghost use Rattle.forms.specs.Schema.{IsChannel};
ghost use Rattle.documents.specs.Nodes.{SoundWith, SoundOver};
ghost use Rattle.fitting.specs.Faults.{fit_refusal};
ghost use Rattle.fitting.specs.Fittable.{UnsoundOver, Fittable, Unfit, FittableOrOneFault};
ghost use Rattle.verdicts.specs.Tables.{rows_in, count_in};
ghost use Rattle.verdicts.specs.declared.faults.RowFault.TheVariants.{Outside};

use super::faults::FitFault;
use super::order::Order;
use documents::nodes::{MAX_NODES, Node};
use relation::offering::ROW_WORDS;
use verdicts::faults::RowFault;
use verdicts::prepared::Prepared;

// Nothing, if the table has a row with that number.
fn find_row(prepared: &Prepared, row: u8) -> Result<(), RowFault>
    ensures { MatchResult result (λ _. row < count_in prepared.now) (λ e. (e ≡ Outside) × (count_in prepared.now ≤ row)) }
{
    if (row as usize) < prepared.count() {
        Ok(())
    } else {
        Err(RowFault::Outside)
    }
}

// Whether the node with number k points at lower nodes, has a label that there is, and refers to a channel row.
fn sound(prepared: &Prepared, k: usize, node: Node) -> bool
    ensures { Decides result (SoundWith (IsChannel (rows_in prepared.now)) k node) }
{
    match node {
        Node::Reference(row) => prepared.is_channel(row),
        _ => node.is_sound(k),
    }
}

// The lowest node that is not sound over the rows. (The writer asks less of a reference: it need not be to a row that is there.)
fn unsound(prepared: &Prepared, nodes: &[Node]) -> Option<usize>
    ensures { MatchOption result (SoundOver (rows_in prepared.now) nodes.now) (λ k. Lowest (UnsoundOver (rows_in prepared.now) nodes.now) k) }
{
    (0..nodes.len()).find(|k| !sound(prepared, *k, nodes[*k]))
}

/// Whether an order can be fitted to a row with so many words of marks (`Fittable`), or which fault it has: the earlier case of `FitFault` first.
pub fn check(prepared: &Prepared, order: &Order, row: u8, marks: usize) -> Result<(), FitFault>
    ensures checked { MatchResult result (λ _. Fittable (rows_in prepared.now) order.now.nodes.now order.now.root row marks) (λ e. Unfit (rows_in prepared.now) order.now.nodes.now order.now.root row marks (fit_refusal e)) }
    ensures one { FittableOrOneFault }
{
    let Order { nodes, root } = *order;
    find_row(prepared, row)?;
    if nodes.len() > MAX_NODES {
        return Err(FitFault::ManyNodes);
    }
    if let Some(node) = unsound(prepared, nodes) {
        return Err(FitFault::Unsound { node: node as u16 });
    }
    if root >= nodes.len() {
        return Err(FitFault::RootOutside);
    }
    if marks != nodes.len() * ROW_WORDS {
        return Err(FitFault::MarksLength);
    }
    Ok(())
}
