// Measures how long the calls of the library take. What it prints differs from run to run, so the gate runs it without a word.
#![tactic(auto)]

use book::Book;
use book::types::Verdict;
use documents::nodes::{MAX_DOCUMENT, MAX_NODES, Node};
use documents::reader::read_document;
use documents::writer::write_document;
use forms::MAX_ROWS;
use relation::admission::admit;
use std::time::Instant;
use std::{env, fs};
use texts::RowText;
use verdicts::prepared::Prepared;

const TIMES: usize = 2000;

const FEW: usize = 20;

const THRICE: usize = 3;

// A part so many times over, and then an end.
fn repeated(rt: &HostRuntime, part: &str, times: usize, end: &str) -> anyhow::Result<String> {
    let mut text = String::new(rt.alloc());
    for _ in 0..times {
        text.push_str(part)?;
    }
    text.push_str(end)?;
    Ok(text)
}

// How long each of so many calls takes, in nanoseconds, and the sum of what they give.
fn timed<F: FnMut(usize) -> usize>(
    rt: &HostRuntime,
    times: usize,
    mut call: F,
) -> anyhow::Result<(u128, usize)>
    requires { F.IsAlwaysCallable call }
{
    let mut sum = 0usize;
    let start = Instant::now(rt)?;
    for k in 0..times {
        sum = sum.saturating_add(call(k));
    }
    let nanos = start.elapsed(rt)?.as_nanos();
    Ok((nanos / times.max(1) as u128, sum))
}

// How many rows the table of a text has, if it is admitted.
fn admitted(text: &[u8]) -> usize {
    let Ok(table) = RowText::read(text) else {
        return 0;
    };
    if admit(&table).is_ok() {
        table.rows().len()
    } else {
        0
    }
}

fn measure_rows(rt: &HostRuntime, name: &str, text: &str) -> anyhow::Result<()> {
    let (each, rows) = timed(rt, TIMES, |_| admitted(text.as_bytes()))?;
    println!(rt; "{name}: checked and admitted in {each} ns (rows admitted: {rows})")?;
    Ok(())
}

// How long it takes to prepare a table.
fn measure_prepared(rt: &HostRuntime, name: &str, text: &str) -> anyhow::Result<()> {
    let table = RowText::new(text.as_bytes());
    let (each, rows) = timed(
        rt,
        TIMES,
        |_| Prepared::of(&table).map_or(0, |prepared| prepared.count()),
    )?;
    println!(rt; "{name}: prepared in {each} ns (rows prepared: {rows})")?;
    Ok(())
}

// 64 rows: elements that follow each other; and unions in a chain against the order in which they are gone through.
fn rows(rt: &HostRuntime) -> anyhow::Result<()> {
    let plain = repeated(rt, "E,00000000000001f8,63,63\n", 63, "V,,,\n")?;
    measure_rows(rt, "64 rows of elements", plain.as_str())?;
    measure_prepared(rt, "64 rows of elements", plain.as_str())?;
    let mut chain = String::new(rt.alloc());
    for k in 1..64u8 {
        let line = format!(in rt.alloc(); "U,,{k},{k}\n")?;
        chain.push_str(line.as_str())?;
    }
    chain.push_str("V,,,\n")?;
    measure_rows(rt, "63 unions in a chain", chain.as_str())?;
    measure_prepared(rt, "63 unions in a chain", chain.as_str())
}

// All verdicts of the table in a file.
fn verdicts(rt: &HostRuntime, path: &str) -> anyhow::Result<()> {
    let bytes = fs::read(rt, path)?;
    let table = RowText::new(&bytes);
    match Prepared::of(&table) {
        Ok(prepared) => {
            let (nanos, yes) = timed(rt, FEW, |_| sets::count(&prepared.verdicts()))?;
            let each = nanos / 1000;
            let count = prepared.count();
            let pairs = yes / FEW;
            println!(rt;
                "{path}: {count} rows, {pairs} pairs hold, all verdicts in {each} microseconds"
            )?;
        }
        Err(_) => println!(rt; "{path}: not admitted")?,
    }
    Ok(())
}

// How long making a book over a table takes, in nanoseconds.
fn making(rt: &HostRuntime, bytes: &[u8]) -> anyhow::Result<u128> {
    let (each, open) = timed(
        rt,
        TIMES,
        |_| Book::new(RowText::new(bytes)).held().is_ok() as usize,
    )?;
    if open == 0 {
        println!(rt; "the book is shut")?;
    }
    Ok(each)
}

// How long an ask of a pair takes on an empty book, in nanoseconds, at best of a few times; none if it is no pair of rows.
fn asking(
    rt: &HostRuntime,
    book: &mut Book<RowText>,
    pair: (u8, u8),
) -> anyhow::Result<Option<u128>> {
    let mut best = u128::MAX;
    for _ in 0..THRICE {
        let _ = book.clear();
        let (nanos, asked) = timed(rt, 1, |_| book.ask(pair).is_ok() as usize)?;
        if asked == 0 {
            return Ok(None);
        }
        best = best.min(nanos);
    }
    Ok(Some(best))
}

// The pairs that settled asks and look-ups go through.
fn mixed(k: usize) -> (u8, u8) {
    ((k % 7) as u8, (k % 11) as u8)
}

// The nanoseconds of each of many calls; how many said yes keeps them from being left out.
fn kept(rt: &HostRuntime, timing: (u128, usize)) -> anyhow::Result<u128> {
    let (nanos, yes) = timing;
    if yes > TIMES {
        println!(rt; "more than all")?;
    }
    Ok(nanos)
}

// How long an ask of a pair takes that was asked before, in nanoseconds.
fn asking_again(rt: &HostRuntime, book: &mut Book<RowText>) -> anyhow::Result<u128> {
    let asked = timed(
        rt,
        TIMES,
        |k| matches!(book.ask(mixed(k)), Ok((Verdict::Yes, _))) as usize,
    )?;
    kept(rt, asked)
}

// How long a look-up takes, in nanoseconds.
fn looking_up(rt: &HostRuntime, book: &Book<RowText>) -> anyhow::Result<u128> {
    let looked = timed(
        rt,
        TIMES,
        |k| matches!(book.look_up(mixed(k)), Ok(Some(Verdict::Yes))) as usize,
    )?;
    kept(rt, looked)
}

// Does something with each pair of as many rows as a table can have.
fn each_pair<F: FnMut((u8, u8)) -> anyhow::Result<()>>(mut step: F) -> anyhow::Result<()>
    requires { F.IsAlwaysCallable step }
{
    for k in 0..MAX_ROWS * MAX_ROWS {
        step(((k / MAX_ROWS) as u8, (k % MAX_ROWS) as u8))?;
    }
    Ok(())
}

// The slowest of the first asks of all pairs of a table, each on an empty book.
fn slowest(rt: &HostRuntime, book: &mut Book<RowText>) -> anyhow::Result<(u128, (u8, u8))> {
    let mut worst = (0u128, (0u8, 0u8));
    each_pair(|pair| {
        match asking(rt, book, pair)? {
            Some(nanos) if nanos > worst.0 => worst = (nanos, pair),
            _ => (),
        }
        Ok(())
    })?;
    Ok(worst)
}

// Making a book over a table, its slowest ask, an ask that is settled, and a look-up.
fn books(rt: &HostRuntime, path: &str) -> anyhow::Result<()> {
    let bytes = fs::read(rt, path)?;
    let made = making(rt, &bytes)?;
    let mut book = Book::new(RowText::new(&bytes));
    let (worst, (p, q)) = slowest(rt, &mut book)?;
    let _ = asking_again(rt, &mut book)?;
    let again = asking_again(rt, &mut book)?;
    let look = looking_up(rt, &book)?;
    let micros = worst / 1000;
    println!(rt;
        "{path}: made in {made} ns; slowest ask, of ({p}, {q}), in {micros} microseconds; settled pairs asked in {again} ns, looked up in {look} ns"
    )?;
    Ok(())
}

// Asks all pairs of a table, to be run with little stack; answers how many are yes.
fn ask_all(book: &mut Book<RowText>) -> anyhow::Result<usize> {
    let mut yes = 0usize;
    each_pair(|pair| {
        if let Ok((Verdict::Yes, _)) = book.ask(pair) {
            yes = yes.saturating_add(1);
        }
        Ok(())
    })?;
    Ok(yes)
}

// Shows an order for each no of a table, to be run with little stack; answers how many nodes they have together.
fn show_all(book: &Book<RowText>) -> anyhow::Result<usize> {
    let mut nodes = [Node::Void; MAX_NODES];
    let mut count = 0usize;
    each_pair(|pair| {
        if let Ok(some) = book.show(pair, &mut nodes) {
            count = count.saturating_add(some);
        }
        Ok(())
    })?;
    Ok(count)
}

// All asks of the book over a table, and then what is handed in, to be run with little stack.
fn stack_book<F: FnOnce(&Book<RowText>) -> anyhow::Result<usize>>(
    rt: &HostRuntime,
    word: &str,
    path: &str,
    then: F,
) -> anyhow::Result<()>
    requires { F.IsAlwaysCallable then }
{
    let bytes = fs::read(rt, path)?;
    let mut book = Book::new(RowText::new(&bytes));
    let yes = ask_all(&mut book)?;
    let shown = then(&book)?;
    println!(rt; "{word}: {yes} {shown}")?;
    Ok(())
}

fn megabytes(bytes: usize, nanos: u128) -> u128 {
    if nanos == 0 {
        0
    } else {
        bytes as u128 * 1000 / nanos
    }
}

fn measure_document(rt: &HostRuntime, name: &str, text: &str) -> anyhow::Result<()> {
    let mut nodes = [Node::Void; MAX_NODES];
    let bytes = text.len();
    let (nanos, read) = timed(
        rt,
        TIMES,
        |_| read_document(text.as_bytes(), &mut nodes).unwrap_or(0),
    )?;
    let count = read / TIMES;
    let speed = megabytes(bytes, nanos);
    println!(rt; "{name}: {bytes} bytes, {count} nodes, read at {speed} MB/s")?;
    let Some(root) = count.checked_sub(1) else {
        return Ok(());
    };
    let table = nodes.get(..count).unwrap_or(&[]);
    let mut buffer = [0u8; MAX_DOCUMENT];
    let (nanos, wrote) = timed(
        rt,
        TIMES,
        |_| write_document(table, root, &mut buffer).unwrap_or(0),
    )?;
    let length = wrote / TIMES;
    let speed = megabytes(length, nanos);
    println!(rt; "{name}: {length} bytes written at {speed} MB/s")?;
    Ok(())
}

fn documents(rt: &HostRuntime) -> anyhow::Result<()> {
    let siblings = repeated(rt, "63[],", 4158, "63[]")?;
    measure_document(rt, "4,159 elements in a row", siblings.as_str())?;
    let groups = repeated(rt, "10[11[],12[13[],14[]],15[]],", 690, "1[]")?;
    measure_document(rt, "groups of six elements", groups.as_str())?;
    let large = repeated(rt, "63[],", 6553, "1[]")?;
    measure_document(rt, "more nodes than a table has", large.as_str())
}

// Each node but the first is made of the number of the one before.
fn chain<F: Fn(u16) -> Node>(nodes: &mut [Node], after: F)
    requires { F.IsAlwaysCallable after }
{
    for (before, node) in (0u16..).zip(nodes.iter_mut().skip(1)) {
        *node = after(before);
    }
}

fn element(inside: u16, following: u16) -> Node {
    Node::Element {
        label: 1,
        inside,
        following,
    }
}

// Reads a document of 4,160 nodes.
fn read_row(rt: &HostRuntime, nodes: &mut [Node]) -> anyhow::Result<usize> {
    let text = repeated(rt, "1[],", 4158, "1[]")?;
    Ok(read_document(text.as_bytes(), nodes).unwrap_or(0))
}

// Writes a document of 4,160 nodes, each of which but the first is made of the number of the one before.
fn write_chain<F: Fn(u16) -> Node>(nodes: &mut [Node], after: F) -> anyhow::Result<usize>
    requires { F.IsAlwaysCallable after }
{
    let mut buffer = [0u8; MAX_DOCUMENT];
    chain(nodes, after);
    Ok(write_document(nodes, MAX_NODES - 1, &mut buffer).unwrap_or(0))
}

// The reading or writing of a document that is handed in, to be run with little stack.
fn stack<F: FnOnce(&mut [Node]) -> anyhow::Result<usize>>(
    rt: &HostRuntime,
    word: &str,
    step: F,
) -> anyhow::Result<()>
    requires { F.IsAlwaysCallable step }
{
    let mut nodes = [Node::Void; MAX_NODES];
    let length = step(&mut nodes)?;
    println!(rt; "{word}: {length}")?;
    Ok(())
}

// Runs a measurement on each path in turn.
fn each<F: Fn(&HostRuntime, &str) -> anyhow::Result<()>>(
    rt: &HostRuntime,
    paths: &[&str],
    measurement: F,
) -> anyhow::Result<()>
    requires { F.IsAlwaysCallable measurement }
{
    for path in paths {
        measurement(rt, path)?;
    }
    Ok(())
}

fn run(rt: &HostRuntime, words: &[&str]) -> anyhow::Result<()> {
    match words {
        ["books", paths @ ..] => each(rt, paths, |rt, path| books(rt, path)),
        ["stack-ask", paths @ ..] => each(rt, paths, |rt, path| {
            stack_book(rt, "stack-ask", path, |_| Ok(0))
        }),
        ["stack-show", paths @ ..] => each(rt, paths, |rt, path| {
            stack_book(rt, "stack-show", path, show_all)
        }),
        ["verdicts", paths @ ..] => each(rt, paths, |rt, path| verdicts(rt, path)),
        ["rows", ..] => rows(rt),
        ["documents", ..] => documents(rt),
        ["stack-read", ..] => stack(rt, "stack-read", |nodes| read_row(rt, nodes)),
        ["stack-row", ..] => stack(rt, "stack-row", |nodes| {
            write_chain(nodes, |before| element(0, before))
        }),
        ["stack-deep", ..] => stack(rt, "stack-deep", |nodes| {
            write_chain(nodes, |before| element(before, 0))
        }),
        _ => {
            println!(rt;
                "measure rows | documents | verdicts TABLE... | books TABLE... | stack-read | stack-row | stack-deep | stack-ask TABLE... | stack-show TABLE..."
            )?;
            Ok(())
        }
    }
}

fn main(rt: HostRuntime) -> anyhow::Result<()> {
    let owned: Vec<String> = env::args(&rt)?.skip(1).collect(rt.alloc())?;
    let words: Vec<&str> = owned.iter().map(|word| word.as_str()).collect(rt.alloc())?;
    run(&rt, &words)
}
