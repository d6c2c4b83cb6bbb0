// formbook order: an order as a tree and as its table of nodes.
use super::faults::Fault;
use documents::faults::ReadFault;
use documents::nodes::{MAX_NODES, Node};
use documents::reader::read_document;
use forms::refusals::Refused;
use std::alloc::{AllocError, Global};

// The document of the last node, a line for each element and reference, what is inside an element two deeper. It stops at
// the depth of what is inside, so a document whose following parts are many takes no stack for them.
pub(crate) fn print_tree(rt: &HostRuntime, nodes: &[Node], indent: usize) -> anyhow::Result<()> {
    let mut rest = nodes;
    while let Some((node, lower)) = rest.split_last() {
        match *node {
            Node::Void => return Ok(()),
            Node::Reference(row) => {
                println!(rt; "{:indent$}the address of row {row}", "")?;
                return Ok(());
            }
            Node::Element {
                label,
                inside,
                following,
            } => {
                println!(rt; "{:indent$}element {label}", "")?;
                if let Some(inner) = lower.get(..inside as usize + 1) {
                    print_tree(rt, inner, indent.saturating_add(2))?;
                }
                rest = lower.get(..following as usize + 1).unwrap_or(&[]);
            }
        }
    }
    Ok(())
}

// A node of a table, without an end of line.
pub(crate) fn print_node(rt: &HostRuntime, k: usize, node: Node) -> anyhow::Result<()> {
    match node {
        Node::Void => print!(rt; "node {k}: void")?,
        Node::Reference(row) => print!(rt; "node {k}: the address of row {row}")?,
        Node::Element {
            label,
            inside,
            following,
        } => print!(rt; "node {k}: element {label}, inside node {inside}, then node {following}")?,
    }
    Ok(())
}

fn print_nodes(rt: &HostRuntime, nodes: &[Node]) -> anyhow::Result<()> {
    for (k, node) in nodes.iter().enumerate() {
        print!(rt; "  ")?;
        print_node(rt, k, *node)?;
        println!(rt)?;
    }
    Ok(())
}

// Why a text is no order, and a caret under the place.
pub(crate) fn explained(heap: Global, text: &str, fault: ReadFault) -> Result<String, AllocError> {
    let mut why = match fault {
        ReadFault::Wrong { place } if place as usize >= text.len() => {
            let number = fault.number();
            format!(in heap; "this is no order ({number}): it ends too early, at place {place}")?
        }
        _ => format!(in heap; "{fault}")?,
    };
    if let ReadFault::Wrong { place } | ReadFault::TooDeep { place } = fault {
        let place = place as usize;
        let caret = format!(in heap; "\n  {text}\n  {:place$}^", "")?;
        why.push_str(caret.as_str())?;
    }
    Ok(why)
}

// Reads an order into room for its nodes, and answers those that it takes.
pub(crate) fn read_nodes<'a>(text: &[u8], room: &'a mut [Node]) -> Result<&'a [Node], ReadFault> {
    let count = read_document(text, room)?;
    Ok(room.get(..count).unwrap_or(&[]))
}

pub(crate) fn order(rt: &HostRuntime, text: &str) -> Result<(), Fault> {
    let mut room = [Node::Void; MAX_NODES];
    match read_nodes(text.as_bytes(), &mut room) {
        Ok(nodes) => {
            println!(rt; "an order; nodes: {}", nodes.len())?;
            print_tree(rt, nodes, 2)?;
            print_nodes(rt, nodes)?;
            Ok(())
        }
        Err(fault) => Err(Fault::Refused(explained(rt.alloc(), text, fault)?)),
    }
}
