// How a table is prepared.
ghost use Rattle.std.specs.Prelude.{◌≡◌, ℕ, ◌*◌, ◌/◌, ◌%◌, ◌<◌, ◌&&◌, Bool, MatchResult, Option, nat_lt, slice_index};
ghost use Rattle.sets.specs.Sets.{member};
ghost use Rattle.forms.specs.Limits.{max_rows};
ghost use Rattle.forms.specs.Buffers.{rows_of};
ghost use Rattle.forms.specs.declared.Row.{Row};
ghost use Rattle.relation.specs.Admission.{Admitted, Finds};
ghost use Rattle.relation.specs.Faults.{admission_refusal};
ghost use Rattle.relation.specs.Judged.{Analyzed};
ghost use Rattle.schema.specs.Theorems.{ReflexiveNeedsDetermined};
ghost use Rattle.verdicts.specs.Ready.{in_row, labels_in, Labelling};
ghost use Rattle.verdicts.specs.Sorting.{of_sort, picked};
ghost use Rattle.verdicts.specs.Tables.{rows_in};

use super::super::kinds::{is_channel, is_element, is_void};
use super::super::rowsets::RowSet;
use super::Prepared;
use forms::buffer::RowBuffer;
use forms::{FormSource, MAX_ROWS, Row};
use relation::AdmissionFault;
use relation::admission::{admit, element_labels};
use relation::analysis::Analysis;
use relation::offering::{CELL_WORDS, ROW_WORDS};
use sets;
use std::array;

// The inhabited rows that pass the test.
fn rows_of_sort<F: Fn(Option<Row>) -> bool>(
    table: &RowBuffer,
    analysis: &Analysis,
    passes: F,
) -> [u64; ROW_WORDS]
    ghost test: { Option Row → Bool }
    requires callable { F.IsAlwaysCallable passes }
    requires told { (row : Option Row) (yes : Bool) → F.post passes row yes → yes ≡ test row }
    ensures { (o : ℕ) → member result o ≡ (nat_lt o max_rows && of_sort (rows_of table.now) analysis.now test o) }
{
    let mut rows = [0; ROW_WORDS];
    for o in 0..MAX_ROWS {
        let is_inhabited = analysis.is_inhabited(o as u8);
        if is_inhabited && passes(table.row(o as u8)) {
            sets::put(&mut rows, o);
        }
    }
    rows
}

// Of the set of each row what is among the given rows.
fn among(cells: &[u64; CELL_WORDS], rows: &[u64; ROW_WORDS]) -> [u64; CELL_WORDS]
    ensures { (k : ℕ) → member result k ≡ (nat_lt k (max_rows * max_rows) && (member cells.now k && member rows.now (k % max_rows))) }
{
    array::from_fn(|i| cells[i] & rows[i % ROW_WORDS])
}

// For each row the inhabited rows that it offers and that pass the test.
fn gather<F: Fn(Option<Row>) -> bool>(
    table: &RowBuffer,
    analysis: &Analysis,
    passes: F,
) -> [u64; CELL_WORDS]
    ghost test: { Option Row → Bool }
    requires callable { F.IsAlwaysCallable passes }
    requires told { (row : Option Row) (yes : Bool) → F.post passes row yes → yes ≡ test row }
    ensures { (k : ℕ) → member result k ≡ (nat_lt k (max_rows * max_rows) && picked (rows_of table.now) analysis.now test (k / max_rows) (k % max_rows)) }
{
    let rows = rows_of_sort(table, analysis, passes);
    among(analysis.offered(), &rows)
}

// The labels of a row, if it is an element row.
fn labels_of(row: Option<Row>) -> u64
    ensures { result ≡ labels_in row }
{
    row.map_or(0, element_labels)
}

// The labels of the rows in the set of row p.
fn labels_in_row(table: &RowBuffer, elements: &[u64], p: u8) -> u64
    ensures { Labelling (rows_of table.now) (in_row elements.now p) result }
{
    let mut labels = 0;
    for o in RowSet::of(elements, p) {
        labels |= labels_of(table.row(o));
    }
    labels
}

// For each row the labels of the rows in its set.
fn gather_labels(table: &RowBuffer, elements: &[u64]) -> [u64; MAX_ROWS]
    ensures { (p : ℕ) → p < max_rows → Labelling (rows_of table.now) (in_row elements.now p) (slice_index result p) }
{
    array::from_fn(
        |p|
            requires { p < 256 }
            ensures { Labelling (rows_of table.entry.now) (in_row elements.entry.now p) result }
        { labels_in_row(table, elements, p as u8) },
    )
}

impl Prepared {
    // Prepares an admitted table.
    fn sorted(table: RowBuffer, analysis: &Analysis) -> Prepared
        requires admitted { Admitted (rows_of table) }
        requires analyzed { Analyzed (rows_of table) analysis.now }
        ensures { rows_in result ≡ rows_of table }
    {
        let voids = gather(&table, analysis, is_void);
        let channels = gather(&table, analysis, is_channel);
        let elements = gather(&table, analysis, is_element);
        let labels = gather_labels(&table, &elements);
        Prepared {
            table,
            voids,
            channels,
            elements,
            labels,
        }
    }

    /// Prepares the table of a source, or says why it is not admitted, with the refusals 11 to 13. Where a label came twice, a row might not be below itself.
    pub fn of<S: FormSource>(source: &S) -> Result<Prepared, AdmissionFault>
        ensures prepared { MatchResult result (λ t. (rows_in t ≡ S.FormSource.rows source.now) × Admitted (S.FormSource.rows source.now)) (λ e. Finds (S.FormSource.rows source.now) (admission_refusal e)) }
        ensures needed { ReflexiveNeedsDetermined }
    {
        let analysis = admit(source)?;
        Ok(Prepared::sorted(RowBuffer::of(source), &analysis))
    }
}
