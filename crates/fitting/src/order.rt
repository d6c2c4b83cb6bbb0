// An order to be fitted.
use documents::nodes::Node;

/// A table of nodes, and the number of the one that stands for the order. Its marks are a slice of their own, beside it.
#[derive(Clone, Copy)]
pub struct Order<'a> {
    /// The nodes: an element points at lower ones.
    pub nodes: &'a [Node],
    /// The number of the node that stands for the order.
    pub root: usize,
}
