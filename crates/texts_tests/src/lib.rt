// Row text as its users see it: which rows a text means, which fault it has, what is written of rows.
#![tactic(auto)]

#[cfg(test)]
mod reading;
#[cfg(test)]
mod writing;
