// Whether a table is admitted, and which fault is found if it is not.
ghost use Rattle.std.specs.Prelude.{◌≡◌, ℕ, ◌<◌, ◌≤◌, true, ◌&&◌, length, Decides, MatchOption};
ghost use Rattle.sets.specs.Sets.{member};
ghost use Rattle.forms.specs.Buffers.{rows_of};
ghost use Rattle.forms.specs.Limits.{max_rows};
ghost use Rattle.forms.specs.Places.{Nowhere, Lowest};
ghost use Rattle.forms.specs.Rows.{NumbersBelow, belongs};
ghost use Rattle.relation.specs.Admission.{Outside, SharesLabel, Gives, AdmittedOrOneFault};
ghost use Rattle.relation.specs.Cells.{cell};
ghost use Rattle.relation.specs.Faults.{label_set_of};
ghost use Rattle.relation.specs.Judged.{Analyzed, Judged};

use super::AdmissionFault;
use super::analysis::{Analysis, analyze_table};
use forms::buffer::RowBuffer;
use forms::{FormSource, Row};

// The lowest row with a number outside the table.
fn outside(table: &RowBuffer) -> Option<u8>
    ensures { MatchOption result (Nowhere (Outside (rows_of table.now))) (Lowest (Outside (rows_of table.now))) }
{
    let rows = table.rows();
    let p = rows.iter().position(|row| !row.numbers_below(rows.len()))?;
    Some(p as u8)
}

/// Whether two label sets have a label in common. Bit k of a set says whether label k belongs to it.
pub fn meets(a: u64, b: u64) -> bool
    ensures { Decides result ((x : ℕ) × (belongs x a ≡ true) × (belongs x b ≡ true)) }
{
    a & b != 0
}

/// The label set of an element row; of another row the empty one, 0.
pub fn element_labels(row: Row) -> u64
    ensures { result ≡ label_set_of row }
{
    match row {
        Row::Element { labels, .. } => labels,
        _ => 0,
    }
}

// Whether row p offers row o, and o is inhabited.
fn counts(analysis: &Analysis, p: usize, o: usize) -> bool
    requires first { p < max_rows }
    requires second { o < max_rows }
    ensures { result ≡ (cell analysis.now.offered p o && member analysis.now.inhabited o) }
{
    analysis.offers(p as u8, o as u8) && analysis.is_inhabited(o as u8)
}

// The labels of row o, if it is an inhabited element row that row p offers.
fn given_labels(table: &RowBuffer, analysis: &Analysis, p: usize, o: usize) -> u64
    requires first { p < length (rows_of table.now) }
    requires second { o < length (rows_of table.now) }
    requires analyzed { Analyzed (rows_of table.now) analysis.now }
    ensures { (x : ℕ) → Decides (belongs x result) (Gives (rows_of table.now) p o x) }
{
    if counts(analysis, p, o) {
        element_labels(table.rows()[o])
    } else {
        0
    }
}

// Whether row p offers two inhabited element rows with a common label.
fn shares(table: &RowBuffer, analysis: &Analysis, p: usize) -> bool
    requires within { p < length (rows_of table.now) }
    requires analyzed { Analyzed (rows_of table.now) analysis.now }
    ensures { Decides result (SharesLabel (rows_of table.now) p) }
{
    let mut seen = 0;
    for o in 0..table.count() {
        let labels = given_labels(table, analysis, p, o);
        if meets(seen, labels) {
            return true;
        }
        seen |= labels;
    }
    false
}

// The lowest such row.
fn sharing(table: &RowBuffer, analysis: &Analysis) -> Option<u8>
    requires { Analyzed (rows_of table.now) analysis.now }
    ensures { MatchOption result (Nowhere (SharesLabel (rows_of table.now))) (Lowest (SharesLabel (rows_of table.now))) }
{
    let p = (0..table.count()).find(|p| shares(table, analysis, *p))?;
    Some(p as u8)
}

// The analysis of a table, if it is admitted, or the fault that is found.
fn admit_table(table: &RowBuffer) -> Result<Analysis, AdmissionFault>
    ensures { Judged (rows_of table.now) result }
{
    if table.count() == 0 {
        return Err(AdmissionFault::NoRows);
    }
    if let Some(row) = outside(table) {
        return Err(AdmissionFault::NumberOutside { row });
    }
    let analysis = analyze_table(table);
    match sharing(table, &analysis) {
        Some(row) => Err(AdmissionFault::LabelTwice { row }),
        None => Ok(analysis),
    }
}

/// The analysis of the table of a source, if it is admitted, or the fault that is found: the earlier case first, and the lowest row of its sort.
///
/// Refused as 11, if there are no rows; as 12, if a number in a row is not below the count of rows; as 13, if a row offers two different inhabited element rows with a common label.
pub fn admit<S: FormSource>(source: &S) -> Result<Analysis, AdmissionFault>
    ensures judged { Judged (S.FormSource.rows source.now) result }
    ensures one { AdmittedOrOneFault (S.FormSource.rows source.now) }
{
    admit_table(&RowBuffer::of(source))
}
