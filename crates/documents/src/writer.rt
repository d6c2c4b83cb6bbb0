// Writing the document of a node as text.
ghost use Rattle.std.specs.Prelude.{◌≡◌, ℕ, ◌<◌, ◌≤◌, length, Decides, MatchOption, MatchResult};
ghost use Rattle.forms.specs.Places.{Lowest};
ghost use Rattle.forms.specs.Splices.{Wrote};
ghost use Rattle.forms.specs.Documents.{Document};
ghost use Rattle.documents.specs.declared.faults.WriteFault.TheVariants.{Unsound as unsound_node};
ghost use Rattle.documents.specs.Limits.{max_nodes};
ghost use Rattle.documents.specs.Grammar.{spelled_document, TextsAreSpelled};
ghost use Rattle.documents.specs.Facts.{sound_is_fact};
ghost use Rattle.documents.specs.Nodes.{SoundAt, Sound, StandsFor, NodesStandForOne};
ghost use Rattle.documents.specs.Spelling.{rest, Shaped};
ghost use Rattle.documents.specs.Answers.{WrittenInto, ReadsBack};
ghost use Rattle.documents.specs.Writing.{Unsound, WritingDocumentsIsOne, ReadIsWrittenBack};

use super::faults::WriteFault;
use super::nodes::{MAX_DOCUMENT, MAX_NODES, Node};
use forms::bytes::{digits, put, put_number};

/// A node by its text: none, an address, or an element with what follows it, if its text is not empty.
#[derive(Clone, Copy)]
pub enum Shape {
    Empty,
    Address(u8),
    Branch(u8, u16, Option<u16>),
}

// The lowest node that is not sound.
fn unsound(nodes: &[Node]) -> Option<usize>
    ensures { MatchOption result (Sound nodes.now) (λ k. Lowest (Unsound nodes.now) k) }
{
    (0..nodes.len()).find(|k| !nodes[*k].is_sound(*k))
}

// The room that is left after n bytes.
fn spend(room: usize, n: usize) -> Option<usize>
    ensures { result ≡ rest room n }
{
    room.checked_sub(n)
}

// A sound table.
#[derive(Clone, Copy)]
struct Table<'a> {
    nodes: &'a [Node],
    ghost sound: { Sound nodes.now } by { sound_is_fact nodes.now },
}

impl<'a> Table<'a> {
    // A table of these nodes, or the lowest one that is not sound.
    fn new(nodes: &'a [Node]) -> Result<Table<'a>, WriteFault>
        requires { length nodes.now ≤ max_nodes }
        ensures { MatchResult result (λ t. t.nodes.now ≡ nodes.now) (λ e. (k : ℕ) × (e ≡ unsound_node k) × Lowest (Unsound nodes.now) k) }
    {
        match unsound(nodes) {
            Some(node) => Err(WriteFault::Unsound { node: node as u16 }),
            None => Ok(Table { nodes }),
        }
    }

    // What the text of node k is made of.
    fn look(&self, k: u16) -> Shape
        requires { k < length self.now.nodes.now }
        ensures { Shaped self.now.nodes.now k result }
    {
        match self.nodes[k as usize] {
            Node::Void => Shape::Empty,
            Node::Reference(row) => Shape::Address(row),
            Node::Element {
                label,
                inside,
                following,
            } => match self.nodes[following as usize] {
                Node::Void => Shape::Branch(label, inside, None),
                Node::Reference(_) | Node::Element { .. } => {
                    Shape::Branch(label, inside, Some(following))
                }
            },
        }
    }

    // The room left after the text of node k, or none if it is longer. It stops once the room is spent, however long the text is.
    // A text that is too long leaves the buffer as it was, so its length is known before a byte of it is written.
    fn measure(&self, k: u16, room: usize) -> Option<usize>
        requires { k < length self.now.nodes.now }
        ensures { (x : Document) → StandsFor self.now.nodes.now k x → result ≡ rest room (length (spelled_document x)) }
    {
        match self.look(k) {
            Shape::Empty => Some(room),
            Shape::Address(row) => spend(room, 1 + digits(row)),
            Shape::Branch(label, inside, following) => {
                let left = spend(room, 2 + digits(label))?;
                let behind = self.measure(inside, left)?;
                match following {
                    None => Some(behind),
                    Some(next) => self.measure(next, spend(behind, 1)?),
                }
            }
        }
    }

    // Writes the text of node k from a place on, where there is room, and answers the place behind it.
    //
    // It calls itself for the inside and for what follows, whose numbers are lower, and is to stay so: the text of a node is made of theirs, and a node that several share is written again for each of them.
    fn write(&self, k: u16, out: &mut [u8], place: usize) -> usize
        requires { k < length self.now.nodes.now }
        ensures { (x : Document) → StandsFor self.now.nodes.now k x → Wrote out.old out.new place (spelled_document x) result }
    {
        match self.look(k) {
            Shape::Empty => place,
            Shape::Address(row) => {
                let at = put(out, place, b'@');
                put_number(out, at, row)
            }
            Shape::Branch(label, inside, following) => {
                let opens = put_number(out, place, label);
                let start = put(out, opens, b'[');
                let end = self.write(inside, out, start);
                let shut = put(out, end, b']');
                match following {
                    None => shut,
                    Some(next) => {
                        let comma = put(out, shut, b',');
                        self.write(next, out, comma)
                    }
                }
            }
        }
    }
}

/// Writes the document that the node `root` stands for as text at the front of a buffer, and answers the text's length in bytes; the rest of the buffer stays.
///
/// # Errors
///
/// 30, 31, 32 and 45, the first of them that holds (`WriteFault`). A refusal leaves the buffer as it was.
pub fn write_document(nodes: &[Node], root: usize, buffer: &mut [u8]) -> Result<usize, WriteFault>
    ensures written { WrittenInto nodes.now root buffer.old buffer.new result }
    ensures back { ReadsBack nodes.now root buffer.new result }
    ensures laws { WritingDocumentsIsOne × TextsAreSpelled × NodesStandForOne × ReadIsWrittenBack }
{
    if nodes.len() > MAX_NODES {
        return Err(WriteFault::ManyNodes);
    }
    let table = Table::new(nodes)?;
    if root >= nodes.len() {
        return Err(WriteFault::RootOutside);
    }
    table
        .measure(root as u16, buffer.len().min(MAX_DOCUMENT))
        .ok_or(WriteFault::TooLong)?;
    Ok(table.write(root as u16, buffer, 0))
}
