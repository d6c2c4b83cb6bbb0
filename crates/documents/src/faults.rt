// Why a document is not read or not written.
ghost use Rattle.documents.specs.Faults.{read_refusal, write_refusal};

use super::nodes::MAX_NODES;
use forms::refusals::Refused;
use std::error::Error;
use std::fmt;

/// Why a text is not read, each case with a number of its own (`read_refusal`). A place is the number of a byte, from 0, or the text's length where it ends too early.
#[derive(Clone, Copy, PartialEq, Eq, Debug)]
pub enum ReadFault {
    /// 40: more than 32,768 bytes
    TooLong,
    /// 41: no text of the grammar goes on so at this place
    Wrong { place: u16 },
    /// 43: the bracket at this place opens a 65th level
    TooDeep { place: u16 },
    /// 44: more nodes than the buffer has, or than 4,160
    TooManyNodes,
}

/// Why a table is not written as text, each case with a number of its own (`write_refusal`).
#[derive(Clone, Copy, PartialEq, Eq, Debug)]
pub enum WriteFault {
    /// 30: more than 4,160 nodes
    ManyNodes,
    /// 31: the lowest node that does not point at lower nodes, or has a label or row number that text cannot spell
    Unsound { node: u16 },
    /// 32: the root is not in the table
    RootOutside,
    /// 45: a text longer than the buffer, or than 32,768 bytes
    TooLong,
}

impl Refused for ReadFault {
    ghost refusal = { read_refusal };

    fn number(&self) -> u8 {
        match self {
            ReadFault::TooLong => 40,
            ReadFault::Wrong { .. } => 41,
            ReadFault::TooDeep { .. } => 43,
            ReadFault::TooManyNodes => 44,
        }
    }
}

impl Refused for WriteFault {
    ghost refusal = { write_refusal };

    fn number(&self) -> u8 {
        match self {
            WriteFault::ManyNodes => 30,
            WriteFault::Unsound { .. } => 31,
            WriteFault::RootOutside => 32,
            WriteFault::TooLong => 45,
        }
    }
}

impl fmt::Display for ReadFault {
    fn fmt<W: fmt::Write>(&self, f: &mut fmt::Formatter<W>) -> fmt::Result {
        let number = self.number();
        match self {
            ReadFault::TooLong => write!(
                f,
                "this is no order ({number}): it has more than 32,768 bytes"
            ),
            ReadFault::Wrong { place } => write!(
                f,
                "this is no order ({number}): at place {place} no order goes on so"
            ),
            ReadFault::TooDeep { place } => write!(
                f,
                "this order is too deep ({number}): the bracket at place {place} opens a 65th level"
            ),
            ReadFault::TooManyNodes => write!(
                f,
                "this order is too large ({number}): it takes more nodes than the buffer has, or more than {MAX_NODES}"
            ),
        }
    }
}

impl Error for ReadFault {}

impl fmt::Display for WriteFault {
    fn fmt<W: fmt::Write>(&self, f: &mut fmt::Formatter<W>) -> fmt::Result {
        write!(f, "the order cannot be written ({}): ", self.number())?;
        match self {
            WriteFault::ManyNodes => write!(f, "there are more than {MAX_NODES} nodes"),
            WriteFault::Unsound { node } => write!(
                f,
                "node {node} is not sound: an element has a label up to 63 and points at two lower nodes, and a reference is to a row up to 63"
            ),
            WriteFault::RootOutside => f.write_str("the root is not one of the nodes"),
            WriteFault::TooLong => f.write_str(
                "the text is longer than the buffer, or than 32,768 bytes",
            ),
        }
    }
}

impl Error for WriteFault {}
