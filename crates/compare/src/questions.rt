// What a comparison is asked.

/// A question: whether every order that fits row `p` of our table fits row `q` of theirs.
///
/// It is one value, so that a further argument is a field here and a field of `Asked`, and no other signature changes.
#[derive(Clone, Copy)]
pub struct Question<'a> {
    /// our table, as row text
    pub ours: &'a [u8],
    /// their table, as row text
    pub theirs: &'a [u8],
    /// a row of ours, counted from 0
    pub p: u64,
    /// a row of theirs, counted from 0
    pub q: u64,
    /// 0 for theirs as it stands; with any other number in and out change places in each of their channel rows
    pub t: u64,
}
