// Tables of rows as their users see them: row buffers, sources above other sources, and text put into buffers.
#![tactic(auto)]

#[cfg(test)]
mod buffers;
#[cfg(test)]
mod bytes;
#[cfg(test)]
mod makes;
