// One question about two tables, as a program asks it.
#![tactic(auto)]

#[cfg(test)]
mod asking;
