// Sets of numbers, kept as bits of 64-bit words.
#![tactic(auto)]

ghost use Rattle.std.specs.Prelude.{◌≡◌, ℕ, ◌-◌, ◌*◌, ◌^◌, ◌<◌, ◌≤◌, min, true, false, not, ◌&&◌, ◌||◌, ◌⊎◌, length, if◌then◌else◌, ◌==◌, count_ones, nat_eq, nat_lt, Decides, bit_and, slice_index, ◌≢◌};
ghost use Rattle.std.specs.Iterator.{at_most};
ghost use Rattle.sets.specs.Sets.{word, top, member, tally, Next, GoesOn};

/// How many members a word has room for.
pub const WORD: usize = 64;

// Members are below this.
const TOP: usize = 1 << 63;

// So many words have room for all members.
const MOST: usize = TOP / WORD;

// How many bits of a word are set, of those that it has.
fn bits(n: u64) -> usize
    ensures ones { result ≡ count_ones n }
    ensures within { n < 2 ^ word }
{
    n.count_ones() as usize
}

/// Whether k belongs to the set: bit k mod 64 of word k div 64. Numbers from 2^63 on belong to none.
pub fn test(words: &[u64], k: usize) -> bool
    ensures { result ≡ member words.now k }
{
    let i = k / WORD;
    if k >= TOP || i >= words.len() {
        return false;
    }
    (words[i] >> (k % WORD)) % 2 == 1
}

/// Adds k; where the words have no room for k, nothing changes.
pub fn put(words: &mut [u64], k: usize)
    ensures within { k < word * length words.old → k < top → (j : ℕ) → member words.new j ≡ (j == k || member words.old j) }
    ensures past { (word * length words.old ≤ k) ⊎ (top ≤ k) → words.new ≡ words.old }
{
    if k < TOP && k / WORD < words.len() {
        words[k / WORD] |= 1 << (k % WORD);
    }
}

/// Takes k away, if it belongs to the set.
pub fn remove(words: &mut [u64], k: usize)
    ensures { (j : ℕ) → member words.new j ≡ (if nat_eq j k then false else member words.old j) }
{
    if test(words, k) {
        words[k / WORD] ^= 1 << (k % WORD);
    }
}

/// The set of the numbers below n, as far as `W` words have room for them.
pub fn first<const W: usize>(n: usize) -> [u64; W]
    ensures each { (j : ℕ) → Decides (member result j) ((j < n) × (j < word * W) × (j < top)) }
    ensures all { n ≤ word * W → n ≤ top → (j : ℕ) → member result j ≡ nat_lt j n }
{
    let mut words = [0; W];
    for k in 0..n {
        put(&mut words, k);
    }
    words
}

/// The lowest member not before the start, if there is one (`Next`). A word without members costs one step.
pub fn next(words: &[u64], start: usize) -> Option<usize>
    ensures { Next (member words.now) start result }
{
    let first = start / WORD;
    if start >= TOP || first >= words.len() {
        return None;
    }
    let rest = words[first] >> (start % WORD);
    if rest != 0 {
        return Some(start + rest.trailing_zeros() as usize);
    }
    let end = words.len().min(MOST);
    for i in first + 1..end {
        if words[i] != 0 {
            return Some(i * WORD + words[i].trailing_zeros() as usize);
        }
    }
    None
}

/// How many members the set has.
pub fn count(words: &[u64]) -> usize
    ensures { result ≡ tally (member words.now) (word * length words.now) }
{
    let mut total = 0;
    for word in &words[..words.len().min(MOST)] {
        total += bits(*word);
    }
    total
}

// Whether some word has a bit that the word at its place in the other list has too.
fn overlaps(words: &[u64], others: &[u64]) -> bool
    ensures { Decides result ((i : ℕ) × (i < length words.now) × (i < length others.now) × (bit_and (slice_index words.now i) (slice_index others.now i) ≢ 0)) }
{
    words
        .iter()
        .zip(others)
        .any(|(word, other)| *word & *other != 0)
}

/// Whether two sets have a member in common.
pub fn meet(words: &[u64], others: &[u64]) -> bool
    ensures { Decides result ((k : ℕ) × (member words.now k ≡ true) × (member others.now k ≡ true)) }
{
    overlaps(&words[..words.len().min(MOST)], others)
}

/// Adds the members of another set, as far as there is room for them, and answers how many are new.
pub fn join(words: &mut [u64], others: &[u64]) -> usize
    ensures members { (j : ℕ) → member words.new j ≡ (member words.old j || (nat_lt j (word * length words.old) && member others.now j)) }
    ensures new { result ≡ tally (λ j. member others.now j && not (member words.old j)) (word * length words.old) }
{
    let mut total = 0;
    let end = words.len().min(others.len()).min(MOST);
    // By number: what is written through `iter_mut` and `zip` is not known behind the loop.
    for (i, other) in others[..end].iter().enumerate() {
        let all = words[i] | *other;
        total += bits(all ^ words[i]);
        words[i] = all;
    }
    total
}

/// Goes through the members of a set, from the lowest to the highest.
#[derive(Clone, Copy)]
pub struct Members<'a> {
    words: &'a [u64],
    start: usize,
}

impl<'a> Members<'a> {
    /// All members of a set.
    pub fn of(words: &'a [u64]) -> Members<'a>
        ensures set { result.words.now ≡ words.now }
        ensures start { result.start ≡ 0 }
    {
        Members { words, start: 0 }
    }
}

impl<'a> Iterator for Members<'a> {
    type Item = usize;

    ghost next_gives = { GoesOn (λ s. member s.words.now) (λ s. s.start) };

    ghost remaining = { λ s. at_most (word * length s.words.now - s.start) };

    fn next(&mut self) -> Option<usize> {
        let k = next(self.words, self.start)?;
        self.start = k + 1;
        Some(k)
    }
}
