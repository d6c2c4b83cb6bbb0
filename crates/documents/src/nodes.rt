// Documents as tables of nodes.
ghost use Rattle.std.specs.Prelude.{Decides};
ghost use Rattle.documents.specs.Nodes.{SoundAt};

use forms::{LABELS, MAX_ROWS};

/// The most nodes that a table has: one for each row and one for each pair of rows.
pub const MAX_NODES: usize = MAX_ROWS * (MAX_ROWS + 1);

/// The most bytes that a document's text has.
pub const MAX_DOCUMENT: usize = 32768;

/// A node of a document table. A reference names a channel row. An element names its label and, by their numbers, the node of its inside and that of what follows it; in a sound table both numbers are lower than its own.
///
/// It is an enum and no struct, since its three cases have no field in common. Nodes are named by numbers, so that several may share one, and no table takes memory from a heap.
#[derive(Clone, Copy, PartialEq, Eq, Debug)]
pub enum Node {
    Void,
    Reference(u8),
    Element {
        label: u8,
        inside: u16,
        following: u16,
    },
}

impl Node {
    /// Whether it has a label or a row number that text can spell and, as the node with number k, points at lower nodes (`SoundAt`).
    pub fn is_sound(&self, k: usize) -> bool
        ensures { Decides result (SoundAt k self.now) }
    {
        match self {
            Node::Void => true,
            Node::Reference(row) => (*row as usize) < MAX_ROWS,
            Node::Element {
                label,
                inside,
                following,
            } => *label < LABELS && (*inside as usize) < k && (*following as usize) < k,
        }
    }
}
