// Books of verdicts, as their users see them.
#![tactic(auto)]

#[cfg(test)]
mod asking;
#[cfg(test)]
mod buffers;
#[cfg(test)]
mod replaying;
#[cfg(test)]
mod shut;
#[cfg(test)]
mod tables;
#[cfg(test)]
mod words;
