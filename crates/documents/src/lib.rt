// Order documents: tables of nodes, and text.
#![tactic(auto)]

pub mod faults;
pub mod nodes;
pub mod reader;
mod scan;
pub mod writer;
