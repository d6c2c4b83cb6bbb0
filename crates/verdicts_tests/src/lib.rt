// Which rows are below which and what a pair leans on, as users of tables see them.
#![tactic(auto)]

#[cfg(test)]
mod asking;
#[cfg(test)]
mod literature;
#[cfg(test)]
mod refusing;
#[cfg(test)]
mod worked;
