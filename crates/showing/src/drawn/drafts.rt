// The nodes that can be made of those that are there. A pair of rows is a tuple, as everywhere: the first row is the one that an order is to fit, the second the one that it is not to.
ghost use Rattle.std.specs.Prelude.{◌≡◌, ℕ, ◌*◌, ◌<◌, true, false, length, Decides, MatchOption, ◌≢◌};
ghost use Rattle.std.specs.List.{slice_get};
ghost use Rattle.sets.specs.Sets.{member};
ghost use Rattle.schema.specs.Rules.{OffersVoid};
ghost use Rattle.verdicts.specs.Reading.{ChannelTaken};
ghost use Rattle.showing.specs.Questions.{rows_asked, leaned_in, below_in};
ghost use Rattle.showing.specs.Drafts.{noted, pair_place, lowest, element_node, lacking_row, difference_from, difference_of_rows, Through, ElementOf, ChannelOf, DiffersIn, ToldBy, Lights, Unlit, Tells, Untold, Drafts, Undrafted};
ghost use Rattle.verdicts.specs.Tables.{rows_in, count_in};

use super::{Drawn, Question};
use documents::nodes::Node;
use forms::Row;
use sets;
use verdicts::prepared::Prepared;

// The lowest label of a set.
fn lowest(labels: u64) -> Option<u8>
    ensures { result ≡ lowest labels }
{
    Some(sets::next(&[labels], 0)? as u8)
}

// The node of an element that has a label and whose parts have nodes.
fn element(label: Option<u8>, inside: Option<u16>, following: Option<u16>) -> Option<Node>
    ensures { result ≡ element_node label inside following }
{
    Some(Node::Element {
        label: label?,
        inside: inside?,
        following: following?,
    })
}

// Whether the first row of a pair offers a void row and the second does not.
fn lacks_void(prepared: &Prepared, pair: (u8, u8)) -> bool
    ensures lacks { result ≡ true → OffersVoid (rows_in prepared.now) pair.0 × (OffersVoid (rows_in prepared.now) pair.1 → ⊥) }
    ensures keeps { result ≡ false → OffersVoid (rows_in prepared.now) pair.0 → OffersVoid (rows_in prepared.now) pair.1 }
{
    prepared.gives_void(pair.0) && !prepared.gives_void(pair.1)
}

// A channel row that the first row of a pair offers and the second does not take within the set of pairs.
fn untaken(question: &Question, pair: (u8, u8)) -> Option<u8>
    ensures { MatchOption result ((c : ℕ) → ChannelOf (rows_asked question.now) pair.0 c → ChannelTaken (rows_asked question.now) (below_in question.now) c pair.1) (λ c. ChannelOf (rows_asked question.now) pair.0 c × (ChannelTaken (rows_asked question.now) (below_in question.now) c pair.1 → ⊥)) }
{
    let Question {
        prepared,
        below,
        ..
    } = *question;
    prepared
        .channels_of(pair.0)
        .find(|c| !prepared.takes_channel(below, (*c, pair.1)))
}

// The place of a pair of rows, behind those of the rows. What is no pair of rows has none, and is not asked for here.
pub(crate) fn pair_place(prepared: &Prepared, pair: (u8, u8)) -> usize
    ensures { result ≡ pair_place (count_in prepared.now) pair.0 pair.1 }
{
    let n = prepared.count();
    n + (pair.0 as usize * n + pair.1 as usize)
}

// Whether k is the place, among those of the pairs, of a pair that the asked one leans on and that is not below.
fn open(question: &Question, k: usize) -> bool
    ensures { Decides result ((k < length (rows_asked question.now) * length (rows_asked question.now)) × (member question.now.leaned.now k ≡ true) × (member question.now.below.now k ≢ true)) }
{
    let n = question.prepared.count();
    k < n * n && sets::test(question.leaned, k) && !sets::test(question.below, k)
}

impl Drawn {
    // The node at a place, if there is one.
    pub(crate) fn node(&self, place: usize) -> Option<u16>
        ensures { result ≡ noted self.now.numbers place }
    {
        *self.numbers.get(place)?
    }

    // The node of a pair of rows.
    fn pair_node(&self, prepared: &Prepared, pair: (u8, u8)) -> Option<u16>
        ensures { result ≡ noted self.now.numbers (pair_place (count_in prepared.now) pair.0 pair.1) }
    {
        self.node(pair_place(prepared, pair))
    }

    // A node for an element row, with a label that is none of the others.
    fn lack_row(&self, others: u64, row: Option<Row>) -> Option<Node>
        ensures { result ≡ lacking_row self.now.numbers others row }
    {
        match row {
            Some(
                Row::Element {
                    labels,
                    inside,
                    following,
                },
            ) => element(
                lowest(labels ^ (labels & others)),
                self.node(inside as usize),
                self.node(following as usize),
            ),
            _ => None,
        }
    }

    // A node that fits an element, of which the labels and the two parts are given, and not a row with a common label.
    fn differ_from(
        &self,
        prepared: &Prepared,
        labels: u64,
        parts: (u8, u8),
        row: Option<Row>,
    ) -> Option<Node>
        ensures { result ≡ difference_from (count_in prepared.now) self.now.numbers labels parts.0 parts.1 row }
    {
        match row {
            Some(
                Row::Element {
                    labels: other,
                    inside,
                    following,
                },
            ) => {
                let label = lowest(labels & other);
                element(
                    label,
                    self.pair_node(prepared, (parts.0, inside)),
                    self.node(parts.1 as usize),
                )
                .or(element(
                    label,
                    self.node(parts.0 as usize),
                    self.pair_node(prepared, (parts.1, following)),
                ))
            }
            _ => None,
        }
    }

    // A node that fits the one of two element rows with a common label and not the other.
    fn differ_rows(&self, prepared: &Prepared, row: Option<Row>, other: Option<Row>) -> Option<Node>
        ensures { result ≡ difference_of_rows (count_in prepared.now) self.now.numbers row other }
    {
        match row {
            Some(
                Row::Element {
                    labels,
                    inside,
                    following,
                },
            ) => self.differ_from(prepared, labels, (inside, following), other),
            _ => None,
        }
    }

    // A node for one of the inhabited element rows that row r offers.
    fn lit_element(&self, prepared: &Prepared, r: u8) -> Option<Node>
        ensures { Through (ElementOf (rows_in prepared.now) r) (λ e v. v ≡ lacking_row self.now.numbers 0 (slice_get (rows_in prepared.now) e)) result }
    {
        prepared
            .elements_of(r)
            .find_map(|e| self.lack_row(0, prepared.row(e)))
    }

    // A node that fits row r.
    fn light(&self, prepared: &Prepared, r: u8) -> Option<Node>
        ensures { MatchOption result (Unlit (rows_in prepared.now) self.now.numbers r) (λ v. Lights (rows_in prepared.now) self.now.numbers r v) }
    {
        if prepared.gives_void(r) {
            return Some(Node::Void);
        }
        if let Some(c) = prepared.channels_of(r).next() {
            return Some(Node::Reference(c));
        }
        self.lit_element(prepared, r)
    }

    // A node that fits an element row and not one of the inhabited element rows that row q offers.
    fn differ_in(&self, prepared: &Prepared, row: Option<Row>, q: u8) -> Option<Node>
        ensures { DiffersIn (rows_in prepared.now) self.now.numbers q row result }
    {
        prepared
            .elements_of(q)
            .find_map(|f| self.differ_rows(prepared, row, prepared.row(f)))
    }

    // A node that fits an element row and none of the inhabited element rows that row q offers: one with a label that none of them has, or with a part that does not fit the one that has the label too.
    fn tell_row(&self, prepared: &Prepared, row: Option<Row>, q: u8) -> Option<Node>
        ensures { ToldBy (rows_in prepared.now) self.now.numbers q row result }
    {
        self.lack_row(prepared.labels(q), row)
            .or_else(|| self.differ_in(prepared, row, q))
    }

    // An element that fits the first row of a pair and not the second.
    fn tell_element(&self, prepared: &Prepared, pair: (u8, u8)) -> Option<Node>
        ensures { Through (ElementOf (rows_in prepared.now) pair.0) (λ e v. ToldBy (rows_in prepared.now) self.now.numbers pair.1 (slice_get (rows_in prepared.now) e) v) result }
    {
        prepared
            .elements_of(pair.0)
            .find_map(|e| self.tell_row(prepared, prepared.row(e), pair.1))
    }

    // A node that fits the first row of a pair and not the second.
    fn tell(&self, question: &Question, pair: (u8, u8)) -> Option<Node>
        ensures { MatchOption result (Untold (rows_asked question.now) (below_in question.now) self.now.numbers pair.0 pair.1) (λ v. Tells (rows_asked question.now) (below_in question.now) self.now.numbers pair.0 pair.1 v) }
    {
        if lacks_void(question.prepared, pair) {
            return Some(Node::Void);
        }
        if let Some(c) = untaken(question, pair) {
            return Some(Node::Reference(c));
        }
        self.tell_element(question.prepared, pair)
    }

    // A node for the row or the pair of rows at a place.
    pub(crate) fn draft(&self, question: &Question, place: usize) -> Option<Node>
        ensures { MatchOption result (Undrafted (rows_asked question.now) (leaned_in question.now) (below_in question.now) self.now.numbers place) (λ v. Drafts (rows_asked question.now) (leaned_in question.now) (below_in question.now) self.now.numbers place v) }
    {
        let n = question.prepared.count();
        if place < n {
            return self.light(question.prepared, place as u8);
        }
        let k = place - n;
        if !open(question, k) {
            return None;
        }
        let pair = question.prepared.pair_at(k)?;
        self.tell(question, pair)
    }
}
