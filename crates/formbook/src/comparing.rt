// formbook compare and formbook button: whether a factory can read every order that we can write.
use super::checking::{each, opened};
use super::faults::Fault;
use super::joining::turning;
use super::ordering;
use compare::comparing::Finding;
use compare::faults::{CompareFault, Side};
use compare::question;
use compare::questions::Question;
use documents::nodes::{MAX_DOCUMENT, MAX_NODES, Node};
use forms::FormSource;
use std::alloc::{AllocError, Global};
use std::fs;
use std::io::Write;
use texts::RowText;

// Which rows the addresses in an order are of: ours, or theirs, whose numbers rise by the count of ours.
fn print_addresses(rt: &HostRuntime, nodes: &[Node], ours: usize) -> anyhow::Result<()> {
    for node in nodes {
        if let Node::Reference(row) = node {
            let row = *row as usize;
            if row < ours {
                println!(rt; "    (row {row} is row {row} of ours)")?;
            } else {
                let own = row - ours;
                println!(rt; "    (row {row} is row {own} of theirs)")?;
            }
        }
    }
    Ok(())
}

// The order as text and as a tree.
fn print_grey(rt: &HostRuntime, text: &[u8], ours: usize) -> anyhow::Result<()> {
    println!(rt; "GREY: we could write an order that they could not read:")?;
    print!(rt; "  ")?;
    if text.is_empty() {
        print!(rt; "(the empty order)")?;
    }
    rt.stdout().write_all(text)?;
    println!(rt)?;
    let mut room = [Node::Void; MAX_NODES];
    match ordering::read_nodes(text, &mut room) {
        Ok(nodes) => {
            ordering::print_tree(rt, nodes, 4)?;
            print_addresses(rt, nodes, ours)
        }
        Err(_) => {
            println!(rt; "    (too deep or too large to be drawn as a tree)")?;
            Ok(())
        }
    }
}

// A row of our table and a row of theirs, to be compared: what a question asks, with the paths of the tables.
#[derive(Clone, Copy)]
struct Comparison<'a> {
    ours: &'a str,
    theirs: &'a str,
    p: u64,
    q: u64,
    turned: bool,
}

impl<'a> Comparison<'a> {
    // The path of a table.
    fn path(&self, side: Side) -> &'a str {
        match side {
            Side::Ours => self.ours,
            Side::Theirs => self.theirs,
        }
    }

    // Why there is no answer: which table is at fault, where and why.
    fn explained(&self, heap: Global, fault: CompareFault) -> Result<String, AllocError> {
        match fault {
            CompareFault::Text(side, fault) => {
                let path = self.path(side);
                format!(in heap; "no answer: {side} table {path}: {fault}")
            }
            CompareFault::Admission(side, fault) => {
                let path = self.path(side);
                format!(in heap; "no answer: {side} table {path}: {fault}")
            }
            CompareFault::Writing(_) => format!(in heap; "GREY, but {fault}"),
            _ => format!(in heap; "{fault}"),
        }
    }

    // The answer in words.
    fn answer(&self, rt: &HostRuntime, ours: &[u8], theirs: &[u8]) -> Result<(), Fault> {
        let mut buffer = [0u8; MAX_DOCUMENT];
        let asked = Question {
            ours,
            theirs,
            p: self.p,
            q: self.q,
            t: self.turned as u64,
        };
        match question(asked, &mut buffer) {
            Ok(Finding::Yes) => {
                println!(rt; "GREEN: every order that we can write is one that they can read")?;
                Ok(())
            }
            Ok(Finding::No { length }) => {
                let text = buffer.get(..length as usize).unwrap_or(&[]);
                print_grey(rt, text, RowText::new(ours).count())?;
                Ok(())
            }
            Err(fault) => Err(Fault::Refused(self.explained(rt.alloc(), fault)?)),
        }
    }

    // The answer for the tables in their files. Where ours cannot be read, that is said before theirs is opened; where neither can, it is said of both.
    fn ask(&self, rt: &HostRuntime) -> Result<(), Fault> {
        let ours = match opened(rt, self.ours, fs::read(rt, self.ours)) {
            Ok(ours) => Some(ours),
            Err(fault) => {
                fault.say(rt)?;
                None
            }
        };
        let theirs = opened(rt, self.theirs, fs::read(rt, self.theirs))?;
        match ours {
            Some(ours) => self.answer(rt, &ours, &theirs),
            None => Err(Fault::Said),
        }
    }
}

// Our table and theirs, a row of ours and one of theirs, and --turn if theirs is to be turned.
pub(crate) fn compare_tables(
    rt: &HostRuntime,
    tables: (&str, &str),
    rows: (&str, &str),
    more: &[&str],
) -> Result<(), Fault> {
    let (turned, rest) = turning(more);
    if !rest.is_empty() {
        return Err(Fault::Refused(format!(in rt.alloc();
            "only --turn may follow the two tables and the two rows"
        )?));
    }
    let (ours, theirs) = tables;
    let (first, second) = rows;
    let (Ok(p), Ok(q)) = (first.parse::<u64>(), second.parse::<u64>()) else {
        return Err(Fault::Refused(format!(in rt.alloc();
            "{first} {second}: two row numbers are asked for"
        )?));
    };
    let comparison = Comparison {
        ours,
        theirs,
        p,
        q,
        turned,
    };
    comparison.ask(rt)
}

// A factory: its table and the row of its orders, as TABLE:ROW.
fn push_button(rt: &HostRuntime, ours: &str, p: u64, word: &str) -> Result<(), Fault> {
    let Some((theirs, row)) = word.split_once(":") else {
        return Err(Fault::Refused(format!(in rt.alloc();
            "{word}: a table, a colon and a row number are asked for"
        )?));
    };
    let Ok(q) = row.parse::<u64>() else {
        return Err(Fault::Refused(format!(in rt.alloc();
            "{word}: a row number is asked for after the colon"
        )?));
    };
    print!(rt; "{theirs}: ")?;
    let comparison = Comparison {
        ours,
        theirs,
        p,
        q,
        turned: false,
    };
    comparison.ask(rt)
}

// Our table, a row of it, and the factories.
pub(crate) fn button(
    rt: &HostRuntime,
    ours: &str,
    first: &str,
    factories: &[&str],
) -> Result<(), Fault> {
    let Ok(p) = first.parse::<u64>() else {
        return Err(Fault::Refused(format!(in rt.alloc(); "{first}: a row number is asked for")?));
    };
    each(
        rt,
        factories,
        |rt, factory| push_button(rt, ours, p, factory),
    )
}
