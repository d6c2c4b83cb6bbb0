// The orders that show why a row is not below another, as users of tables see them.
#![tactic(auto)]

#[cfg(test)]
mod words;
#[cfg(test)]
mod worked;
