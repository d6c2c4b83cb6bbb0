// formbook verdicts: which rows of a table are below which.
use super::checking::{each, load, refused};
use super::faults::Fault;
use super::phrases;
use texts::RowText;
use verdicts::prepared::Prepared;

// A line for each row: what it is.
fn print_rows(rt: &HostRuntime, table: &RowText) -> anyhow::Result<()> {
    for (number, row) in table.rows().iter().enumerate() {
        print!(rt; "  row {number}: ")?;
        phrases::print_row(rt, *row)?;
        println!(rt)?;
    }
    Ok(())
}

// The numbers of the rows, from 0.
fn print_numbers(rt: &HostRuntime, count: u8) -> anyhow::Result<()> {
    print!(rt; "     ")?;
    for q in 0..count {
        print!(rt; " {q:>2}")?;
    }
    println!(rt)?;
    Ok(())
}

// Y under each row that row p is below, n under each other.
fn print_line(
    rt: &HostRuntime,
    prepared: &Prepared,
    verdicts: &[u64],
    p: u8,
) -> anyhow::Result<()> {
    print!(rt; "  {p:>2} ")?;
    for q in 0..prepared.count() as u8 {
        let below = prepared.relates(verdicts, (p, q));
        print!(rt; "  {}", if below { "Y" } else { "n" })?;
    }
    println!(rt)?;
    Ok(())
}

// A line for each row.
fn print_square(rt: &HostRuntime, prepared: &Prepared) -> anyhow::Result<()> {
    let verdicts = prepared.verdicts();
    let count = prepared.count() as u8;
    print_numbers(rt, count)?;
    for p in 0..count {
        print_line(rt, prepared, &verdicts, p)?;
    }
    Ok(())
}

fn verdicts_of(rt: &HostRuntime, path: &str) -> Result<(), Fault> {
    let table = load(rt, path)?;
    let prepared = Prepared::of(&table).map_err(|fault| refused(rt, path, fault))?;
    println!(rt;
        "{path}: Y where every order that fits the row at the left fits the row at the top"
    )?;
    print_rows(rt, &table)?;
    print_square(rt, &prepared)?;
    Ok(())
}

// Each table in turn.
pub(crate) fn verdicts(rt: &HostRuntime, paths: &[&str]) -> Result<(), Fault> {
    each(rt, paths, |rt, path| verdicts_of(rt, path))
}
