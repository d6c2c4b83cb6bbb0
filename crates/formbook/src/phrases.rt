// Rows and sets in words.
use forms::{Capability, Row};
use sets::Members;

// What an address with the capability is for.
fn capability_word(capability: Capability) -> &'static str {
    match capability {
        Capability::In => "to receive from (in)",
        Capability::Out => "to send to (out)",
        Capability::Both => "to receive from and send to (both)",
    }
}

// The members of a set behind some words, with commas between them; other words for the empty set.
pub(crate) fn print_members(
    rt: &HostRuntime,
    set: &[u64],
    before: &str,
    none: &str,
) -> anyhow::Result<()> {
    let mut members = Members::of(set);
    let Some(first) = members.next() else {
        print!(rt; "{none}")?;
        return Ok(());
    };
    print!(rt; "{before}{first}")?;
    for member in members {
        print!(rt; ", {member}")?;
    }
    Ok(())
}

fn print_labels(rt: &HostRuntime, labels: u64) -> anyhow::Result<()> {
    if labels == u64::MAX {
        print!(rt; "any label")?;
        return Ok(());
    }
    print_members(rt, &[labels], "labels ", "no label")
}

// A row, without an end of line.
pub(crate) fn print_row(rt: &HostRuntime, row: Row) -> anyhow::Result<()> {
    match row {
        Row::Void => print!(rt; "void: the empty document")?,
        Row::Nothing => print!(rt; "nothing: no document")?,
        Row::Channel(capability, payload) => {
            let word = capability_word(capability);
            print!(rt; "channel: an address {word}, for what fits row {payload}")?;
        }
        Row::Element {
            labels,
            inside,
            following,
        } => {
            print!(rt; "element: ")?;
            print_labels(rt, labels)?;
            print!(rt; "; inside row {inside}, then row {following}")?;
        }
        Row::Union(left, right) => print!(rt; "union: row {left} or row {right}")?,
    }
    Ok(())
}
