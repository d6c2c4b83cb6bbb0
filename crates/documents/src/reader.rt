// Reading document text into a table of nodes.
ghost use Rattle.std.specs.Prelude.{◌≡◌, ◌∷◌, ℕ, List, MatchOption, ◌+◌, ◌<◌, ◌≤◌, min, length, drop, nat_lt, slice_set};
ghost use Rattle.documents.specs.declared.nodes.Node.TheVariants.{Element};
ghost use Rattle.documents.specs.Limits.{max_nodes, max_document};
ghost use Rattle.documents.specs.Built.{Ready, Onward, ReadsNumber, BuildsList, BuildsItem, BuildsText};
ghost use Rattle.documents.specs.Answers.{ReadInto, WritesBack};
ghost use Rattle.documents.specs.Grammar.{TextsAreUnambiguous, WrongAtOnePlace};
ghost use Rattle.documents.specs.Nodes.{NodesStandForDocuments};
ghost use Rattle.documents.specs.Reading.{ReadingIsOne, LevelsAreOpened, ReadIsSpelled};

use super::faults::ReadFault;
use super::nodes::{MAX_DOCUMENT, MAX_NODES, Node};
use super::scan::judge;
use forms::bytes::digit;

/// What reading has come to: the rest of the text, how many nodes are used, and the number of the last one.
#[derive(Clone, Copy)]
pub struct Reached<'a> {
    rest: &'a [u8],
    used: usize,
    root: u16,
}

// The text behind its first byte.
fn behind(text: &[u8]) -> &[u8]
    ensures { result.now ≡ drop 1 text.now }
{
    match text {
        [_, rest @ ..] => rest,
        [] => text,
    }
}

// The text behind this byte, if the text begins with it.
fn after(text: &[u8], byte: u8) -> Option<&[u8]>
    ensures { MatchOption result ((rest : List ℕ) → text.now ≡ byte ∷ rest → ⊥) (λ rest. text.now ≡ byte ∷ rest.now) }
{
    match text {
        [first, rest @ ..] if *first == byte => Some(rest),
        _ => None,
    }
}

// The number that a text begins with, of one digit or two, and the text behind it.
// The text has been judged, so a number stands there; what is answered where none does is never used.
fn number(text: &[u8]) -> (u8, &[u8])
    ensures within { length result.1.now ≤ length text.now }
    ensures reads { ReadsNumber text.now result.0 result.1.now }
{
    let [first, rest @ ..] = text else {
        return (0, text);
    };
    let Some(tens) = digit(*first) else {
        return (0, text);
    };
    let [second, more @ ..] = rest else {
        return (tens, rest);
    };
    match digit(*second) {
        Some(ones) => (tens * 10 + ones, more),
        None => (tens, rest),
    }
}

// Writes a node, where there is room.
fn put(nodes: &mut [Node], used: usize, node: Node)
    ensures { nodes.new ≡ slice_set nodes.old used node }
{
    if used < nodes.len() {
        nodes[used] = node;
    }
}

// The node of an element, behind those of its inside and of what follows it.
fn close<'a>(nodes: &mut [Node], label: u8, inside: u16, last: Reached<'a>) -> Reached<'a>
    requires { last.used ≤ max_document }
    ensures wrote { nodes.new ≡ slice_set nodes.old last.entry.used (Element label inside last.entry.root) }
    ensures reached { (result.rest.now ≡ last.entry.rest.now) × (result.used ≡ last.entry.used + 1) × (result.root ≡ last.entry.used) }
{
    put(
        nodes,
        last.used,
        Node::Element {
            label,
            inside,
            following: last.root,
        },
    );
    Reached {
        rest: last.rest,
        used: last.used + 1,
        root: last.used as u16,
    }
}

// A list: a reference, or an element, or an element, a comma and a list.
//
// `list` and `item` call each other as lists and items of the grammar hold each other, with fewer bytes left at each call. They are to stay two such functions, and no loop over a stack of open brackets: the contract of each names the part of the grammar that it reads. The text, the nodes and their count go in side by side, since a struct of them would hold a `&mut`, and each contract would have to say that it is still the same.
#[cycle(item_list)]
fn list<'a>(text: &'a [u8], nodes: &mut [Node], used: usize) -> Reached<'a>
    requires { Ready text.now used }
    ensures onward { Onward text.now 0 used result }
    ensures builds { BuildsList text.now nodes.old nodes.new used result }
{
    if text.is_empty() {
        return Reached {
            rest: text,
            used,
            root: 0,
        };
    }
    if let Some(rest) = after(text, b'@') {
        let (row, end) = number(rest);
        put(nodes, used, Node::Reference(row));
        return Reached {
            rest: end,
            used: used + 1,
            root: used as u16,
        };
    }
    let (label, inside) = item(text, nodes, used);
    match after(inside.rest, b',') {
        Some(more) => {
            let last = list(more, nodes, inside.used);
            close(nodes, label, inside.root, last)
        }
        None => close(
            nodes,
            label,
            inside.root,
            Reached {
                rest: inside.rest,
                used: inside.used,
                root: 0,
            },
        ),
    }
}

// An element without what follows it: a label, and brackets that hold a list or nothing.
#[cycle(item_list)]
fn item<'a>(text: &'a [u8], nodes: &mut [Node], used: usize) -> (u8, Reached<'a>)
    requires ready { Ready text.now used }
    requires some { 0 < length text.now }
    ensures onward { Onward text.now 1 used result.1 }
    ensures builds { BuildsItem text.now nodes.old nodes.new used result.0 result.1 }
{
    let (label, end) = number(text);
    let start = behind(end);
    match after(start, b']') {
        Some(shut) => (
            label,
            Reached {
                rest: shut,
                used,
                root: 0,
            },
        ),
        None => {
            let inside = list(start, nodes, used);
            (
                label,
                Reached {
                    rest: behind(inside.rest),
                    used: inside.used,
                    root: inside.root,
                },
            )
        }
    }
}

// The nodes of a text that is known to be right and to fit.
fn build(text: &[u8], nodes: &mut [Node])
    requires { length text.now ≤ max_document }
    ensures { BuildsText text.now nodes.old nodes.new }
{
    put(nodes, 0, Node::Void);
    if !text.is_empty() {
        let _ = list(text, nodes, 1);
    }
}

// Whether there is no room for so many nodes in a buffer, or in any table.
fn too_many(count: usize, buffer: usize) -> bool
    ensures { result ≡ nat_lt (min buffer max_nodes) count }
{
    count > buffer.min(MAX_NODES)
}

/// Reads a text into the front of a buffer of nodes, and answers how many they are. Node 0 is void; an element's inside nodes come first, then its following nodes, then its own; the last is the root (`nodes_for`).
///
/// The nodes go into the caller's slice, in place, and what lies behind them there stays: callers bring the memory, and may keep other things in its rest.
///
/// # Errors
///
/// 40, then 41 or 43, whichever is at the lower place, then 44 (`ReadFault`). A refusal leaves the buffer as it was.
pub fn read_document(text: &[u8], nodes: &mut [Node]) -> Result<usize, ReadFault>
    ensures read { ReadInto text.now nodes.old nodes.new result }
    ensures back { WritesBack text.now nodes.new result }
    ensures laws { ReadingIsOne × ReadIsSpelled × TextsAreUnambiguous × WrongAtOnePlace × LevelsAreOpened × NodesStandForDocuments }
{
    if text.len() > MAX_DOCUMENT {
        return Err(ReadFault::TooLong);
    }
    let count = judge(text)?;
    if too_many(count, nodes.len()) {
        return Err(ReadFault::TooManyNodes);
    }
    build(text, nodes);
    Ok(count)
}
