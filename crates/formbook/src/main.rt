// The form book for people: tables of forms and orders, explained in words.
#![tactic(auto)]

use anyhow::anyhow;
use faults::Fault;
use std::{env, fs};

mod checking;
mod comparing;
mod deciding;
mod faults;
mod joining;
mod ordering;
mod phrases;
mod replaying;
mod scripting;
mod telling;

const USAGE: &str = "formbook: tables of forms, and the orders that fit them

  formbook check TABLE...          says what each row of a table is, or why the table is refused
  formbook join OURS THEIRS [--turn]
                                   prints two tables side by side as one; --turn swaps in and out in theirs
  formbook verdicts TABLE...       prints for each two rows whether all orders of the first fit the second
  formbook order TEXT              prints an order as a tree and as its table of nodes
  formbook replay TABLE SCRIPT     makes a book over a table, performs the calls in a file, one a line, and prints the answers
  formbook compare OURS THEIRS P Q [--turn]
                                   says whether each order of row P of OURS is one of row Q of THEIRS, or shows one that is not
  formbook button OURS P THEIRS:Q...
                                   asks the same of several factories, and says GREEN or GREY for each
  formbook batch FILE              runs the commands in a file, one a line

A TABLE is a file of row text, and rows are counted from 0. THEIRS:Q is a table, a colon and a row.
docs/FORMATS.md has the formats, docs/REFUSALS.md the refusals, docs/CALLS.md the calls on a book.";

// The words of a command.
fn run(rt: &HostRuntime, words: &[&str]) -> Result<(), Fault> {
    match words {
        ["check", paths @ ..] if !paths.is_empty() => checking::check(rt, paths),
        ["join", ours, theirs, more @ ..] if more.len() < 2 => {
            joining::join(rt, ours, theirs, more)
        }
        ["verdicts", paths @ ..] if !paths.is_empty() => deciding::verdicts(rt, paths),
        ["replay", table, script] => replaying::replay_script(rt, table, script),
        ["compare", ours, theirs, p, q, more @ ..] if more.len() < 2 => {
            comparing::compare_tables(rt, (ours, theirs), (p, q), more)
        }
        ["button", ours, p, factories @ ..] if !factories.is_empty() => {
            comparing::button(rt, ours, p, factories)
        }
        ["order"] => ordering::order(rt, ""),
        ["order", text] => ordering::order(rt, text),
        [] => {
            println!(rt; "{USAGE}")?;
            Ok(())
        }
        _ => Err(Fault::Refused(format!(in rt.alloc(); "{USAGE}")?)),
    }
}

// A line of a file as a command; an empty line and one that begins with # are passed over.
fn run_line(rt: &HostRuntime, line: &str) -> anyhow::Result<()> {
    if line.is_empty() || line.starts_with("#") {
        return Ok(());
    }
    println!(rt; "$ formbook {line}")?;
    let words: Vec<&str> = line.split_whitespace().collect(rt.alloc())?;
    if let Err(fault) = run(rt, &words) {
        fault.say(rt)?;
    }
    println!(rt)?;
    Ok(())
}

// Each line of a file is a command.
fn batch(rt: &HostRuntime, path: &str) -> Result<(), Fault> {
    let text = fs::read_to_string(rt, path)?;
    for line in text.as_str().lines() {
        run_line(rt, line)?;
    }
    Ok(())
}

fn main(rt: HostRuntime) -> anyhow::Result<()> {
    let owned: Vec<String> = env::args(&rt)?.skip(1).collect(rt.alloc())?;
    let words: Vec<&str> = owned.iter().map(|word| word.as_str()).collect(rt.alloc())?;
    let ran = match words.as_slice() {
        ["batch", path] => batch(&rt, path),
        words => run(&rt, words),
    };
    if let Err(fault) = ran {
        fault.say(&rt)?;
        return Err(anyhow!("not all went well"));
    }
    Ok(())
}
