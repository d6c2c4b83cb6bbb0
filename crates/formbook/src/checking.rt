// formbook check: what each row of a table is.
use super::faults::Fault;
use super::phrases;
use relation::admission::admit;
use relation::analysis::Analysis;
use relation::offering::ROW_WORDS;
use std::{fmt, fs, io};
use texts::RowText;

fn print_table(rt: &HostRuntime, table: &RowText, analysis: &Analysis) -> anyhow::Result<()> {
    let offers = analysis.offered().chunks(ROW_WORDS);
    for ((number, row), offered) in (0u8..).zip(table.rows()).zip(offers) {
        print!(rt; "  row {number}: ")?;
        phrases::print_row(rt, *row)?;
        let inhabited = if analysis.is_inhabited(number) {
            "inhabited"
        } else {
            "not inhabited"
        };
        print!(rt; "; {inhabited}; ")?;
        phrases::print_members(rt, offered, "offers rows ", "offers nothing")?;
        println!(rt)?;
    }
    Ok(())
}

// What was read from a file, or that it cannot be read.
pub(crate) fn opened<T: Drop>(
    rt: &HostRuntime,
    path: &str,
    read: io::Result<T>,
) -> Result<T, Fault> {
    match read {
        Ok(text) => Ok(text),
        Err(error) => Err(Fault::Refused(format!(in rt.alloc();
            "{path}: the file cannot be read: {error}"
        )?)),
    }
}

// The fault that is found in the table of a file.
pub(crate) fn refused<E: fmt::Display + Drop>(rt: &HostRuntime, path: &str, fault: E) -> Fault {
    match format!(in rt.alloc(); "{path}: {fault}") {
        Ok(why) => Fault::Refused(why),
        Err(error) => Fault::from(error),
    }
}

// Reads a table from a file.
pub(crate) fn load(rt: &HostRuntime, path: &str) -> Result<RowText, Fault> {
    let bytes = opened(rt, path, fs::read(rt, path))?;
    RowText::read(&bytes).map_err(|fault| refused(rt, path, fault))
}

// Runs a command on each word in turn. Where it does not go well, it says why, and the next word's turn comes.
pub(crate) fn each<F: Fn(&HostRuntime, &str) -> Result<(), Fault>>(
    rt: &HostRuntime,
    words: &[&str],
    command: F,
) -> Result<(), Fault>
    requires { F.IsAlwaysCallable command }
{
    let mut all = Ok(());
    for word in words {
        if let Err(fault) = command(rt, word) {
            fault.say(rt)?;
            all = Err(Fault::Said);
        }
    }
    all
}

fn check_one(rt: &HostRuntime, path: &str) -> Result<(), Fault> {
    let table = load(rt, path)?;
    let analysis = admit(&table).map_err(|fault| refused(rt, path, fault))?;
    let count = table.rows().len();
    println!(rt; "{path}: admitted, {count} rows")?;
    print_table(rt, &table, &analysis)?;
    Ok(())
}

// Each table in turn.
pub(crate) fn check(rt: &HostRuntime, paths: &[&str]) -> Result<(), Fault> {
    each(rt, paths, |rt, path| check_one(rt, path))
}
