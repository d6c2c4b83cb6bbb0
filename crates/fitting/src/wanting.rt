// Which pairs of rows decide where the references of a document fit.
ghost use Rattle.std.specs.Prelude.{◌≡◌, ℕ, ◌*◌, ◌/◌, ◌%◌, ◌<◌, ◌≤◌, true, false, ◌⊎◌, Decides};
ghost use Rattle.sets.specs.Sets.{member};
ghost use Rattle.forms.specs.Limits.{max_rows};
ghost use Rattle.forms.specs.Schema.{IsChannel};
ghost use Rattle.documents.specs.declared.nodes.Node.TheVariants.{Reference};
ghost use Rattle.fitting.specs.Marks.{Referred};
ghost use Rattle.verdicts.specs.Tables.{rows_in, count_in, related_in};

use super::rows::numbers_where;
use documents::nodes::Node;
use relation::offering::ROW_WORDS;
use sets;
use verdicts::prepared::Prepared;
use verdicts::prepared::deciding::PAIR_WORDS;

// Adds the row that the node refers to, if it does.
fn refer(rows: &mut [u64; ROW_WORDS], node: Node)
    ensures { (a : ℕ) → a < max_rows → Decides (member rows.new a) ((member rows.old a ≡ true) ⊎ (node ≡ Reference a)) }
{
    if let Node::Reference(row) = node {
        sets::put(rows, row as usize);
    }
}

// The rows that the nodes refer to.
fn referred(nodes: &[Node]) -> [u64; ROW_WORDS]
    ensures { (a : ℕ) → a < max_rows → Decides (member result a) (Referred nodes.now a) }
{
    let mut rows = [0; ROW_WORDS];
    for node in nodes {
        refer(&mut rows, *node);
    }
    rows
}

// Whether the first row of the pair with that place is among the rows, and the second is a channel row.
fn wants(prepared: &Prepared, rows: &[u64], place: usize) -> bool
    ensures within { place < count_in prepared.now * count_in prepared.now → Decides result ((member rows.now (place / count_in prepared.now) ≡ true) × IsChannel (rows_in prepared.now) (place % count_in prepared.now)) }
    ensures outside { count_in prepared.now * count_in prepared.now ≤ place → result ≡ false }
{
    match prepared.pair_at(place) {
        Some((a, b)) => sets::test(rows, a as usize) && prepared.is_channel(b),
        None => false,
    }
}

/// The pairs of a row that a node refers to and a channel row, as a relation of the table's rows: they decide where the order's
/// references fit.
pub fn wanted(prepared: &Prepared, nodes: &[Node]) -> [u64; PAIR_WORDS]
    ensures wanted { (a b : ℕ) → Decides (related_in prepared.now result a b) ((a < count_in prepared.now) × Referred nodes.now a × IsChannel (rows_in prepared.now) b) }
    ensures rest { (k : ℕ) → count_in prepared.now * count_in prepared.now ≤ k → member result k ≡ false }
{
    let rows = referred(nodes);
    let n = prepared.count();
    numbers_where(n * n, |k| wants(prepared, &rows, k))
}
