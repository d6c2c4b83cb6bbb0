// Admission, analysis and narrowing as their users see them.
#![tactic(auto)]

#[cfg(test)]
mod admitting;
#[cfg(test)]
mod analyzing;
#[cfg(test)]
mod stepping;
