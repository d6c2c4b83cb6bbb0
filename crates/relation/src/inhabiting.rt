// Which rows some document fits: all but the largest set of rows that lean on each other for one.
ghost use Rattle.std.specs.Prelude.{◌≡◌, ℕ, ◌≤◌, not, ◌&&◌, length, Decides, nat_lt};
ghost use Rattle.sets.specs.Sets.{member};
ghost use Rattle.forms.specs.Buffers.{rows_of};
ghost use Rattle.forms.specs.Schema.{Inhabited};
ghost use Rattle.relation.specs.Barren.{lacks, barren_row, barren, barren_lawful};

use super::offering::ROW_WORDS;
use forms::Row;
use forms::buffer::RowBuffer;
use narrowing;
use narrowing::Rule;
use sets;
use sets::Members;

// Whether a number is that of no row, or of one taken to be barren.
fn lacking(count: usize, set: &[u64], number: u8) -> bool
    ensures { result ≡ lacks count (member set.now) number }
{
    number as usize >= count || sets::test(set, number as usize)
}

// Whether no document fits the row, if none fits the rows in the set.
fn is_barren(count: usize, set: &[u64], row: Row) -> bool
    ensures { result ≡ barren_row count (member set.now) row }
{
    match row {
        Row::Void => false,
        Row::Nothing => true,
        Row::Channel(_, _) => false,
        Row::Element {
            labels,
            inside,
            following,
        } => labels == 0 || lacking(count, set, inside) || lacking(count, set, following),
        Row::Union(left, right) => lacking(count, set, left) && lacking(count, set, right),
    }
}

// The rule of the rows that no document fits.
#[derive(Drop)]
struct Barren<'a> {
    rows: &'a [Row],
}

impl<'a> Rule for Barren<'a> {
    ghost says = { λ s. barren s.rows.now };

    ghost lawful = { λ s. barren_lawful s.rows.now };

    fn ask(&self, place: usize, set: &[u64]) -> bool {
        match self.rows.get(place) {
            Some(row) => is_barren(self.rows.len(), set, *row),
            None => true,
        }
    }
}

// Takes the members of a set away from another.
fn take_away(rest: &mut [u64], set: &[u64])
    ensures { (j : ℕ) → member rest.new j ≡ (member rest.old j && not (member set.now j)) }
{
    for p in Members::of(set) {
        sets::remove(rest, p);
    }
}

// The rows that some document fits.
pub(crate) fn inhabited_rows(table: &RowBuffer) -> [u64; ROW_WORDS]
    ensures { (p : ℕ) → Decides (member result p) (Inhabited (rows_of table.now) p) }
{
    let rows = table.rows();
    let mut all = sets::first(rows.len());
    let mut barren = all;
    narrowing::narrow(&Barren { rows }, &mut barren);
    take_away(&mut all, &barren);
    all
}
