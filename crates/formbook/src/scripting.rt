// Lines of a script, read as calls on a book.
ghost use Rattle.std.specs.Prelude.{◌≡◌, ℕ, ◌+◌, ◌*◌, ◌<◌, IfOk, IfErr, OkIff, MatchOption, MatchResult, List, replicate, codes, ◌++◌};
ghost use Rattle.forms.specs.Documents.{Document};
ghost use Rattle.forms.specs.Refusals.Outcome.{gives};
ghost use Rattle.documents.specs.Limits.{max_nodes};
ghost use Rattle.documents.specs.Nodes.{nodes_for};
ghost use Rattle.documents.specs.Reading.{Reads};
ghost use Rattle.book.specs.Relations.{words_for};
ghost use Rattle.replay.specs.Exchanges.{call_of};
ghost use Rattle.formbook.specs.Words.{number, IsNumber};
ghost use Rattle.formbook.specs.Spelling.{IsRow, IsLength, IsPair, ArePairs, AreNumbers, IsNode, AreCopies, AreNodes, IsOrder, longest, all_set, FitsOrder, FitsNodes, Misses, Spells, LineSpells, SpellsNone};

use documents::faults::ReadFault;
use documents::nodes::{MAX_NODES, Node};
use documents::reader::read_document;
use relation::offering::ROW_WORDS;
use replay::exchange::Call;
use sets;
use std::alloc::{AllocError, AllocFailed, Global};
use std::fmt;

// The longest buffer that a script may ask for.
const LONGEST: usize = 2 * MAX_NODES;

// Why a line is no call.
#[derive(Drop)]
pub(crate) enum Unread {
    // what is asked for there
    Wanted(&'static str),
    // a length or a number of times above the longest
    TooLong,
    // the text of its order is refused
    Order(ReadFault),
    Memory,
}

impl fmt::Display for Unread {
    fn fmt<W: fmt::Write>(&self, f: &mut fmt::Formatter<W>) -> fmt::Result {
        match self {
            Unread::Wanted(wanted) => write!(f, "asked for: {wanted}"),
            Unread::TooLong => write!(f, "asked for: a number up to {LONGEST}"),
            Unread::Order(fault) => write!(f, "{fault}"),
            Unread::Memory => f.write_str("there is not enough memory for it"),
        }
    }
}

impl From<ReadFault> for Unread {
    fn from(fault: ReadFault) -> Unread {
        Unread::Order(fault)
    }
}

impl From<AllocError> for Unread {
    ghost use Rattle.formbook.specs.declared.scripting.Unread.TheVariants.{Memory};

    ghost from_gives = { λ _ e. e ≡ Memory };

    fn from(_error: AllocError) -> Unread {
        Unread::Memory
    }
}

impl<T: Drop> From<AllocFailed<T>> for Unread {
    ghost use Rattle.formbook.specs.declared.scripting.Unread.TheVariants.{Memory};

    ghost from_gives = { λ _ e. e ≡ Memory };

    fn from(_error: AllocFailed<T>) -> Unread {
        Unread::Memory
    }
}

fn read_row(word: &str) -> Result<u8, Unread>
    ensures { OkIff result (IsNumber 8 10 word.now) (number 10 word.now) }
{
    word.parse::<u8>()
        .map_err(|_| Unread::Wanted("a row number, from 0 to 255"))
}

fn read_pair(p: &str, q: &str) -> Result<(u8, u8), Unread>
    ensures { MatchResult result (λ pair. IsRow p.now pair.0 × IsRow q.now pair.1) (λ _. IsNumber 8 10 p.now → IsNumber 8 10 q.now → ⊥) }
{
    Ok((read_row(p)?, read_row(q)?))
}

fn read_length(word: &str) -> Result<usize, Unread>
    ensures { MatchResult result (IsLength word.now) (λ _. IsNumber 64 10 word.now → longest < number 10 word.now) }
{
    match word.parse::<usize>() {
        Ok(number) if number > LONGEST => Err(Unread::TooLong),
        Ok(number) => Ok(number),
        Err(_) => Err(Unread::Wanted("a length")),
    }
}

fn read_number(word: &str) -> Result<u64, Unread>
    ensures { OkIff result (IsNumber 64 16 word.now) (number 16 word.now) }
{
    u64::from_str_radix(word, 16).map_err(|_| Unread::Wanted(
        "64-bit numbers in hexadecimal digits",
    ))
}

// The text that a word stands for: - is the empty order.
pub(crate) fn order_text(word: &str) -> &str
    ensures { IsOrder word.now result.now }
{
    if word == "-" { "" } else { word }
}

const NODES: &str =
    "nodes as v, @ROW or e:LABEL:INSIDE:FOLLOWING, each with *TIMES behind it if need be";

fn read_element(word: &str) -> Option<Node>
    ensures { MatchOption result ((node : Node) → IsNode (codes "e:" ++ word.now) node → ⊥) (IsNode (codes "e:" ++ word.now)) }
{
    let (label, nodes) = word.split_once(':')?;
    let (inside, following) = nodes.split_once(':')?;
    Some(Node::Element {
        label: label.parse::<u8>().ok()?,
        inside: inside.parse::<u16>().ok()?,
        following: following.parse::<u16>().ok()?,
    })
}

fn read_node(word: &str) -> Option<Node>
    ensures { MatchOption result ((node : Node) → IsNode word.now node → ⊥) (IsNode word.now) }
{
    if word == "v" {
        return Some(Node::Void);
    }
    if let Some(row) = word.strip_prefix("@") {
        return Some(Node::Reference(row.parse::<u8>().ok()?));
    }
    read_element(word.strip_prefix("e:")?)
}

fn read_one(word: &str) -> Result<Node, Unread>
    ensures { MatchResult result (IsNode word.now) (λ _. (node : Node) → IsNode word.now node → ⊥) }
{
    read_node(word).ok_or(Unread::Wanted(NODES))
}

// A node, and how often it stands there.
fn read_copies(word: &str) -> Result<(Node, usize), Unread>
    ensures { MatchResult result (λ copies. AreCopies word.now copies.0 copies.1) (λ _. (node : Node) (times : ℕ) → AreCopies word.now node times → ⊥) }
{
    match word.split_once('*') {
        Some((node, times)) => {
            let times = read_length(times)?;
            Ok((read_one(node)?, times))
        }
        None => Ok((read_one(word)?, 1)),
    }
}

// What is asked for behind the name of a call, where the words spell none.
fn wanted(words: &[&str]) -> &'static str {
    match words {
        [] => "a call",
        ["ask", ..] | ["look-up", ..] => "two row numbers",
        ["held", ..] | ["clear", ..] => "nothing more on the line",
        ["hand-out", ..] => "nothing more, or a length",
        ["show", ..] => "two row numbers, and if need be a number of nodes",
        ["fit", ..] => "an order (- for the empty one) and a row number",
        ["fit-nodes", ..] => {
            "the number of the root, a row number, the number of marks, and nodes"
        }
        _ => "ask, offer, offer-words, look-up, held, hand-out, show, fit, fit-nodes or clear",
    }
}

// Reads calls on a book over so many rows, with their buffers on the heap.
#[derive(Clone, Copy)]
pub(crate) struct Reader {
    pub(crate) heap: Global,
    pub(crate) count: u8,
}

impl Reader {
    // How many numbers a relation between the rows fills.
    fn relation_length(&self) -> usize
        ensures { result ≡ words_for self.now.count }
    {
        let count = self.count as usize;
        (count * count).div_ceil(sets::WORD)
    }

    // How many nodes an order that is shown has at most.
    fn most_nodes(&self) -> usize
        ensures { result ≡ self.now.count * (self.now.count + 1) }
    {
        let count = self.count as usize;
        count * (count + 1)
    }

    // Numbers for a call to write, with every bit set, so that what is read in them then was written by the call.
    fn numbers(&self, length: usize) -> Result<Vec<u64>, AllocError>
        ensures { IfOk result (λ v. v.items ≡ replicate length all_set) }
    {
        vec![in self.heap; u64::MAX; length]
    }

    // Nodes for a call to write.
    fn nodes(&self, length: usize) -> Result<Vec<Node>, AllocError>
        ensures { IfOk result (λ v. v.items ≡ replicate length Node.Void) }
    {
        vec![in self.heap; Node::Void; length]
    }

    // A pair P,Q as its bit in a relation between the rows.
    fn read_bit(&self, word: &str) -> Result<usize, Unread>
        ensures { MatchResult result (IsPair self.now.count word.now) (λ _. (bit : ℕ) → IsPair self.now.count word.now bit → ⊥) }
    {
        let (first, second) = word
            .split_once(',')
            .ok_or(Unread::Wanted("pairs of row numbers as P,Q"))?;
        let (p, q) = read_pair(first, second)?;
        if p >= self.count || q >= self.count {
            return Err(Unread::Wanted("pairs of rows of the table"));
        }
        Ok(p as usize * self.count as usize + q as usize)
    }

    // Puts pairs into the empty relation.
    fn put_pairs(&self, words: &[&str], relation: &mut [u64]) -> Result<(), Unread>
        requires { relation.old ≡ replicate (words_for self.now.count) 0 }
        ensures { MatchResult result (λ _. ArePairs self.now.count words.now relation.new) (λ _. (relation : List ℕ) → ArePairs self.now.count words.now relation → ⊥) }
    {
        for word in words {
            sets::put(relation, self.read_bit(word)?);
        }
        Ok(())
    }

    fn read_relation(&self, words: &[&str]) -> Result<Vec<u64>, Unread>
        ensures { MatchResult result (λ v. ArePairs self.now.count words.now v.items) (Misses (ArePairs self.now.count words.now)) }
    {
        let mut relation = vec![in self.heap; 0u64; self.relation_length()]?;
        self.put_pairs(words, &mut relation)?;
        Ok(relation)
    }

    fn read_numbers(&self, words: &[&str]) -> Result<Vec<u64>, Unread>
        ensures { MatchResult result (λ v. AreNumbers words.now v.items) (Misses (AreNumbers words.now)) }
    {
        let mut numbers = Vec::new(self.heap);
        for word in words {
            numbers.push(read_number(word)?)?;
        }
        Ok(numbers)
    }

    fn read_order(&self, text: &str) -> Result<Vec<Node>, Unread>
        ensures reads { IfOk result (λ v. (d : Document) × Reads max_nodes text.now (gives d) × (v.items ≡ nodes_for d)) }
        ensures misses { IfErr result (Misses (λ d. Reads max_nodes text.now (gives d))) }
    {
        let mut nodes = self.nodes(MAX_NODES)?;
        let count = read_document(text.as_bytes(), &mut nodes)?;
        nodes.truncate(count);
        Ok(nodes)
    }

    fn read_nodes(&self, words: &[&str]) -> Result<Vec<Node>, Unread>
        ensures { MatchResult result (λ v. AreNodes words.now v.items) (Misses (AreNodes words.now)) }
    {
        let mut nodes = Vec::new(self.heap);
        for word in words {
            let (node, times) = read_copies(word)?;
            nodes.resize(nodes.len().saturating_add(times), node)?;
        }
        Ok(nodes)
    }

    fn read_fit(&self, order: &str, row: &str) -> Result<Call, Unread>
        ensures fits { IfOk result (λ call. FitsOrder order.now row.now (call_of call)) }
        ensures misses { IfErr result (Misses (FitsOrder order.now row.now)) }
    {
        let row = read_row(row)?;
        let nodes = self.read_order(order_text(order))?;
        let root = nodes.len().saturating_sub(1);
        let marks = self.numbers(nodes.len().saturating_mul(ROW_WORDS))?;
        Ok(Call::Fit {
            nodes,
            root,
            row,
            marks,
        })
    }

    fn read_fit_nodes(
        &self,
        root: &str,
        row: &str,
        marks: &str,
        nodes: &[&str],
    ) -> Result<Call, Unread>
        ensures fits { IfOk result (λ call. FitsNodes root.now row.now marks.now nodes.now (call_of call)) }
        ensures misses { IfErr result (Misses (FitsNodes root.now row.now marks.now nodes.now)) }
    {
        Ok(Call::Fit {
            nodes: self.read_nodes(nodes)?,
            root: read_length(root)?,
            row: read_row(row)?,
            marks: self.numbers(read_length(marks)?)?,
        })
    }

    // The call that the words of a line spell.
    fn spelled(&self, words: &[&str]) -> Result<Call, Unread>
        ensures spells { IfOk result (λ call. Spells self.now.count words.now (call_of call)) }
        ensures misses { IfErr result (Misses (Spells self.now.count words.now)) }
    {
        match words {
            ["ask", p, q] => Ok(Call::Ask(read_pair(p, q)?)),
            ["offer", pairs @ ..] => Ok(Call::Offer(self.read_relation(pairs)?)),
            ["offer-words", numbers @ ..] => Ok(Call::Offer(self.read_numbers(numbers)?)),
            ["look-up", p, q] => Ok(Call::LookUp(read_pair(p, q)?)),
            ["held"] => Ok(Call::Held),
            ["hand-out"] => Ok(Call::HandOut(self.numbers(self.relation_length())?)),
            ["hand-out", length] => Ok(Call::HandOut(self.numbers(read_length(length)?)?)),
            ["show", p, q] => Ok(Call::Show(read_pair(p, q)?, self.nodes(self.most_nodes())?)),
            ["show", p, q, length] => {
                let pair = read_pair(p, q)?;
                Ok(Call::Show(pair, self.nodes(read_length(length)?)?))
            }
            ["fit", order, row] => self.read_fit(order, row),
            ["fit-nodes", root, row, marks, nodes @ ..] => {
                self.read_fit_nodes(root, row, marks, nodes)
            }
            ["clear"] => Ok(Call::Clear),
            _ => Err(Unread::Wanted(wanted(words))),
        }
    }

    // A line as a call.
    pub(crate) fn read_call(&self, line: &str) -> Result<Call, Unread>
        ensures { MatchResult result (λ call. LineSpells self.now.count line.now (call_of call)) (SpellsNone self.now.count line.now) }
    {
        let words: Vec<&str> = line.split_whitespace().collect(self.heap)?;
        self.spelled(&words)
    }
}

#[cfg(test)]
mod tests {
    use super::*;
    use std::test::Fail;

    #[test]
    fn words(rt: HostRuntime) -> Result<(), Fail> {
        let cases = [
            (
                Unread::Wanted("two row numbers"),
                "asked for: two row numbers",
            ),
            (Unread::TooLong, "asked for: a number up to 8320"),
            (
                Unread::Order(ReadFault::Wrong { place: 4 }),
                "this is no order (41): at place 4 no order goes on so",
            ),
            (Unread::Memory, "there is not enough memory for it"),
        ];
        for (unread, words) in &cases {
            let told = format!(in rt.alloc(); "{unread}")?;
            assert_eq!(rt; told.as_str(), *words);
        }
        Ok(())
    }
}
