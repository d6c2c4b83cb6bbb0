// Any list of calls, performed on a book that is made for them.
#![tactic(auto)]

pub mod exchange;
pub mod performing;
