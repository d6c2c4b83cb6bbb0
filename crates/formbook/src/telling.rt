// What a book answers to a call, in words.
use super::faults::Fault;
use super::{ordering, phrases};
use anyhow::anyhow;
use book::types::{BookFault, Verdict};
use documents::nodes::{MAX_DOCUMENT, Node};
use documents::writer::write_document;
use relation::offering::ROW_WORDS;
use replay::exchange::{Answer, Call};
use sets::Members;
use std::io::Write;

fn print_new(rt: &HostRuntime, new: usize) -> anyhow::Result<()> {
    match new {
        0 => println!(rt; "; no pair is new")?,
        1 => println!(rt; "; 1 pair is new")?,
        _ => println!(rt; "; {new} pairs are new")?,
    }
    Ok(())
}

fn print_verdict(rt: &HostRuntime, pair: (u8, u8), verdict: Verdict) -> anyhow::Result<()> {
    let (p, q) = pair;
    match verdict {
        Verdict::Yes => print!(rt; "yes: every order that fits row {p} fits row {q}")?,
        Verdict::No => print!(rt; "no: some order fits row {p} and not row {q}")?,
    }
    Ok(())
}

fn print_asked(rt: &HostRuntime, pair: (u8, u8), asked: (Verdict, usize)) -> anyhow::Result<()> {
    print!(rt; "  ")?;
    print_verdict(rt, pair, asked.0)?;
    print_new(rt, asked.1)
}

fn print_offered(rt: &HostRuntime, new: usize) -> anyhow::Result<()> {
    print!(rt; "  taken: all its pairs keep the rules within it")?;
    print_new(rt, new)
}

fn print_looked_up(rt: &HostRuntime, pair: (u8, u8), found: Option<Verdict>) -> anyhow::Result<()> {
    match found {
        Some(verdict) => {
            print!(rt; "  held as ")?;
            print_verdict(rt, pair, verdict)?;
            println!(rt)?;
        }
        None => println!(rt; "  unsettled: the pair is not held")?,
    }
    Ok(())
}

// The pairs of a relation between so many rows.
fn print_pairs(rt: &HostRuntime, relation: &[u64], count: usize) -> anyhow::Result<()> {
    for pair in Members::of(relation) {
        if let (Some(p), Some(q)) = (pair.checked_div(count), pair.checked_rem(count)) {
            print!(rt; " ({p}, {q})")?;
        }
    }
    println!(rt)?;
    Ok(())
}

fn print_handed_out(
    rt: &HostRuntime,
    many: usize,
    relation: &[u64],
    count: usize,
) -> anyhow::Result<()> {
    print!(rt; "  the pairs held as yes, {many}:")?;
    print_pairs(rt, relation, count)?;
    print!(rt; "    as numbers:")?;
    for number in relation {
        print!(rt; " {number:016x}")?;
    }
    println!(rt)?;
    Ok(())
}

// An order as its text.
fn print_order(rt: &HostRuntime, nodes: &[Node]) -> anyhow::Result<()> {
    let mut buffer = [0u8; MAX_DOCUMENT];
    let root = nodes.len().saturating_sub(1);
    match write_document(nodes, root, &mut buffer) {
        Ok(0) => print!(rt; "the empty order")?,
        Ok(length) => rt.stdout().write_all(buffer.get(..length).unwrap_or(&[]))?,
        Err(_) => print!(rt; "its text is too long to be written")?,
    }
    Ok(())
}

fn print_shown(rt: &HostRuntime, pair: (u8, u8), nodes: &[Node]) -> anyhow::Result<()> {
    let (p, q) = pair;
    let many = nodes.len();
    print!(rt; "  an order that fits row {p} and not row {q} (nodes: {many}): ")?;
    print_order(rt, nodes)?;
    println!(rt)?;
    ordering::print_tree(rt, nodes, 4)
}

// Each node, and the rows that it is marked for.
fn print_marked(rt: &HostRuntime, nodes: &[Node], marks: &[u64]) -> anyhow::Result<()> {
    for ((k, node), rows) in nodes.iter().enumerate().zip(marks.chunks(ROW_WORDS)) {
        print!(rt; "    ")?;
        ordering::print_node(rt, k, *node)?;
        phrases::print_members(rt, rows, "; fits rows ", "; fits no row")?;
        println!(rt)?;
    }
    Ok(())
}

fn print_fitted(rt: &HostRuntime, row: u8, fitted: (bool, usize)) -> anyhow::Result<()> {
    if fitted.0 {
        print!(rt; "  yes: the order fits row {row}")?;
    } else {
        print!(rt; "  no: the order does not fit row {row}")?;
    }
    print_new(rt, fitted.1)
}

fn fault_of(answer: &Answer) -> Option<BookFault> {
    match answer {
        Answer::Asked(Err(fault))
        | Answer::Offered(Err(fault))
        | Answer::LookedUp(Err(fault))
        | Answer::Counted(Err(fault))
        | Answer::HandedOut(Err(fault), _)
        | Answer::Shown(Err(fault), _)
        | Answer::Fitted(Err(fault), _)
        | Answer::Cleared(Err(fault)) => Some(*fault),
        _ => None,
    }
}

// An answer that is no refusal.
fn print_given(rt: &HostRuntime, call: &Call, answer: &Answer, count: usize) -> anyhow::Result<()> {
    match (call, answer) {
        (Call::Ask(pair), Answer::Asked(Ok(asked))) => print_asked(rt, *pair, *asked),
        (Call::Offer(_), Answer::Offered(Ok(new))) => print_offered(rt, *new),
        (Call::LookUp(pair), Answer::LookedUp(Ok(found))) => print_looked_up(rt, *pair, *found),
        (Call::Held, Answer::Counted(Ok(many))) => {
            println!(rt; "  pairs held: {many}")?;
            Ok(())
        }
        (Call::HandOut(_), Answer::HandedOut(Ok(many), relation)) => {
            print_handed_out(rt, *many, relation, count)
        }
        (Call::Show(pair, _), Answer::Shown(Ok(many), nodes)) => {
            print_shown(rt, *pair, nodes.get(..*many).unwrap_or(&[]))
        }
        (Call::Fit { nodes, row, .. }, Answer::Fitted(Ok(fitted), marks)) => {
            print_fitted(rt, *row, *fitted)?;
            print_marked(rt, nodes, marks)
        }
        (Call::Clear, Answer::Cleared(Ok(()))) => {
            println!(rt; "  no pair is held any more")?;
            Ok(())
        }
        _ => Err(anyhow!("the answer is to another call")),
    }
}

// An answer, unless the call was refused.
pub(crate) fn print_answer(
    rt: &HostRuntime,
    call: &Call,
    answer: &Answer,
    count: usize,
) -> Result<(), Fault> {
    if let Some(fault) = fault_of(answer) {
        return Err(Fault::Refused(format!(in rt.alloc(); "  {fault}")?));
    }
    print_given(rt, call, answer, count)?;
    Ok(())
}
