// Order documents, as their users see them: tables of nodes, and text.
#![tactic(auto)]

#[cfg(test)]
mod reading;
#[cfg(test)]
mod writing;
