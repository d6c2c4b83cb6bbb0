// formbook join: two tables side by side as one.
use super::checking::{load, refused};
use super::faults::Fault;
use forms::makes::{Joined, Turned};
use forms::{FormSource, MAX_ROWS};
use std::io::Write;
use texts::writing::write_rows;
use texts::{MAX_TEXT, RowText};

fn print_source<S: FormSource>(rt: &HostRuntime, source: &S) -> Result<(), Fault> {
    let mut buffer = [0u8; MAX_TEXT];
    let length = write_rows(source, &mut buffer).map_err(|fault| refused(
        rt,
        "the joined table",
        fault,
    ))?;
    rt.stdout().write_all(buffer.get(..length).unwrap_or(&[]))?;
    Ok(())
}

fn join_tables(
    rt: &HostRuntime,
    first: RowText,
    second: RowText,
    turned: bool,
) -> Result<(), Fault> {
    let ours = first.count();
    let theirs = second.count();
    if ours + theirs > MAX_ROWS {
        return Err(Fault::Refused(format!(in rt.alloc();
            "the tables cannot be joined: they have {ours} and {theirs} rows, and {MAX_ROWS} is the most together"
        )?));
    }
    if turned {
        let second = Turned { source: second };
        print_source(rt, &Joined { first, second })
    } else {
        print_source(rt, &Joined { first, second })
    }
}

// Whether --turn is the first of some words, and the words without it.
pub(crate) fn turning<'a, 'b>(words: &'a [&'b str]) -> (bool, &'a [&'b str]) {
    match words {
        ["--turn", rest @ ..] => (true, rest),
        _ => (false, words),
    }
}

// Two tables, and --turn if the second is to be turned.
pub(crate) fn join(rt: &HostRuntime, ours: &str, theirs: &str, more: &[&str]) -> Result<(), Fault> {
    let (turned, rest) = turning(more);
    if let [word, ..] = rest {
        return Err(Fault::Refused(format!(in rt.alloc();
            "{word}: only --turn may follow the two tables"
        )?));
    }
    let first = load(rt, ours)?;
    let second = load(rt, theirs)?;
    join_tables(rt, first, second, turned)
}
