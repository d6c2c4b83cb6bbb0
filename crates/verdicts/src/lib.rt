// Which rows of an admitted table are below which, and what each verdict leans on.
#![tactic(auto)]

pub mod faults;
pub mod kinds;
pub mod prepared;
pub mod rowsets;
