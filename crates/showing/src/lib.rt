// An order that fits one row of a prepared table and not another.
#![tactic(auto)]

ghost use Rattle.std.specs.Prelude.{◌≡◌, ◌+◌, ◌*◌};
ghost use Rattle.showing.specs.Showing.{Shown};
ghost use Rattle.verdicts.specs.Tables.{rows_in, count_in};

use documents::nodes::Node;
use drawn::Question;
use drawn::steps::draw;
use faults::ShowFault;
use verdicts::prepared::Prepared;

mod drawn;
pub mod faults;

/// How many nodes an order that is shown of a table has at most: one a row and one a pair of rows, n × (n + 1) for n rows.
pub fn most_nodes(prepared: &Prepared) -> usize
    ensures { result ≡ count_in prepared.now * (count_in prepared.now + 1) }
{
    let n = prepared.count();
    n * (n + 1)
}

/// Writes an order that fits the first row of a pair and not the second (`Witnesses`), and answers how many nodes it has.
///
/// It fills the caller's slice in place, and the rest is unchanged. Callers and later readers rely on this form: the first nodes,
/// as many as are answered, are a sound table whose last is its root, and no memory is taken for them. A refusal, which is 21, 25
/// or 26, the first that holds, leaves all nodes.
pub fn show(prepared: &Prepared, pair: (u8, u8), nodes: &mut [Node]) -> Result<usize, ShowFault>
    ensures { Shown (rows_in prepared.now) pair.0 pair.1 nodes.old nodes.new result }
{
    prepared.in_table(pair)?;
    let leaned = prepared.leaned(pair);
    let mut below = leaned;
    prepared.narrow(&mut below);
    if prepared.relates(&below, pair) {
        return Err(ShowFault::NotNo);
    }
    if nodes.len() < most_nodes(prepared) {
        return Err(ShowFault::FewNodes);
    }
    let question = Question {
        prepared,
        leaned: &leaned,
        below: &below,
    };
    Ok(draw(&question, pair, nodes))
}
