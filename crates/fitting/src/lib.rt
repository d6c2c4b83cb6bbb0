// Which rows each node of a document table fits.
#![tactic(auto)]

pub mod checking;
pub mod faults;
pub mod marking;
pub mod order;
pub mod rows;
pub mod wanting;
