// formbook replay: calls on a book, one a line of a script, and what it answers.
ghost use Rattle.std.specs.Prelude.{◌≡◌, length, map, IfOk, MatchResult};
ghost use Rattle.std.specs.Str.{trim};
ghost use Rattle.texts.specs.Calls.{text_rows};
ghost use Rattle.replay.specs.Exchanges.{call_of};
ghost use Rattle.formbook.specs.Spelling.{LineSpells, SpellsNone};
ghost use Rattle.formbook.specs.Scripts.{is_call_line, call_lines, LinesSpell, Hinders, IsRun};

use super::checking::{load, opened};
use super::faults::Fault;
use super::ordering;
use super::scripting::{Reader, Unread, order_text};
use super::telling::print_answer;
use forms::FormSource;
use replay::exchange::{Answer, Call};
use replay::performing::replay;
use std::alloc::{AllocError, AllocFailed, Global};
use std::fs;
use texts::RowText;

// A line of a script: its number, from 0, and its text without the white space around it.
#[derive(Clone, Copy)]
struct Line<'a> {
    number: usize,
    text: &'a str,
}

impl<'a> Line<'a> {
    fn of(number: usize, line: &'a str) -> Line<'a>
        ensures number { result.number ≡ number }
        ensures text { result.text.now ≡ trim line.now }
    {
        Line {
            number,
            text: line.trim(),
        }
    }

    // Whether it is no empty line and no comment.
    fn is_call(&self) -> bool
        ensures { result ≡ is_call_line self.now.text.now }
    {
        !self.text.is_empty() && !self.text.starts_with("#")
    }
}

// A line that spells no call, and why.
#[derive(Drop)]
struct Mistake<'a> {
    line: Line<'a>,
    unread: Unread,
}

// The answers to the calls of a script, in their order.
#[derive(Drop)]
struct Played {
    answers: Vec<Answer>,
}

// A line of a script, and the answer to the call that it spells.
#[derive(Clone, Copy)]
struct Entry<'a> {
    line: &'a str,
    answer: &'a Answer,
}

impl<'a> Entry<'a> {
    // The call that the line spells. Performing takes the calls, so the line is read once more, and it is read only when its
    // call is told: the buffers of all calls at once would take as much memory again as the answers.
    fn call(&self, reader: &Reader) -> Result<Call, Unread>
        ensures { MatchResult result (λ call. LineSpells reader.now.count self.now.line.now (call_of call)) (SpellsNone reader.now.count self.now.line.now) }
    {
        reader.read_call(self.line)
    }
}

// Why a script is not performed.
#[derive(Drop)]
enum Unplayed<'a> {
    // these lines spell no call
    Mistakes(Vec<Mistake<'a>>),
    // there is not enough memory
    NoMemory,
}

impl<'a> From<AllocError> for Unplayed<'a> {
    ghost use Rattle.formbook.specs.declared.replaying.Unplayed.TheVariants.{NoMemory};

    ghost from_gives = { λ _ e. e ≡ NoMemory };

    fn from(_error: AllocError) -> Unplayed<'a> {
        Unplayed::NoMemory
    }
}

impl<'a, T: Drop> From<AllocFailed<T>> for Unplayed<'a> {
    ghost use Rattle.formbook.specs.declared.replaying.Unplayed.TheVariants.{NoMemory};

    ghost from_gives = { λ _ e. e ≡ NoMemory };

    fn from(_error: AllocFailed<T>) -> Unplayed<'a> {
        Unplayed::NoMemory
    }
}

// The lines of a script that are calls.
fn lines_of<'a>(heap: Global, script: &'a str) -> Result<Vec<Line<'a>>, AllocError>
    ensures { IfOk result (λ v. map (λ line. (line.number, line.text.now)) v.items ≡ call_lines script.now) }
{
    script
        .lines()
        .enumerate()
        .map(|(number, line)| Line::of(number, line))
        .filter(|line| line.is_call())
        .collect(heap)
}

// The calls that lines spell.
fn spelled<'a>(reader: &Reader, lines: &[Line<'a>]) -> Result<Vec<Call>, Unplayed<'a>>
    ensures { MatchResult result (λ v. LinesSpell reader.now.count lines.now v.items) (Hinders reader.now.count lines.now) }
{
    let mut calls = Vec::new(reader.heap);
    let mut mistakes = Vec::new(reader.heap);
    for line in lines {
        match reader.read_call(line.text) {
            Ok(call) => calls.push(call)?,
            Err(unread) => mistakes.push(Mistake {
                line: *line,
                unread,
            })?,
        }
    }
    if mistakes.is_empty() {
        Ok(calls)
    } else {
        Err(Unplayed::Mistakes(mistakes))
    }
}

// Performs the calls that lines spell on a book over a table.
fn replayed<'a>(heap: Global, table: RowText, lines: &[Line<'a>]) -> Result<Played, Unplayed<'a>>
    ensures { MatchResult result (IsRun (text_rows table) lines.now) (Hinders (length (text_rows table)) lines.now) }
{
    let count = table.count() as u8;
    let reader = Reader { heap, count };
    let calls = spelled(&reader, lines)?;
    let room = Vec::with_capacity(heap, calls.len())?;
    // There is room for as many answers as there are calls, which is all that replaying asks for.
    let Ok((_book, answers)) = replay(table, calls, room) else {
        unreachable!()
    };
    Ok(Played { answers })
}

// One entry for each line, with the answer at its place.
fn entries<'a>(
    heap: Global,
    lines: &[Line<'a>],
    answers: &'a [Answer],
) -> Result<Vec<Entry<'a>>, AllocError>
    requires answers { length answers.now ≡ length lines.now }
    ensures lines { IfOk result (λ v. map (λ e. e.line.now) v.items ≡ map (λ line. line.text.now) lines.now) }
    ensures answers { IfOk result (λ v. map (λ e. e.answer.now) v.items ≡ answers.now) }
{
    let mut entries = Vec::new(heap);
    for (k, line) in lines.iter().enumerate() {
        entries.push(Entry {
            line: line.text,
            answer: &answers[k],
        })?;
    }
    Ok(entries)
}

// Why a line cannot be read.
fn print_mistake(rt: &HostRuntime, path: &str, mistake: &Mistake) -> anyhow::Result<()> {
    let number = mistake.line.number.saturating_add(1);
    let text = mistake.line.text;
    println!(rt; "{path}: line {number} is no call: {text}")?;
    if let Unread::Order(fault) = mistake.unread {
        let order = order_text(text.split_whitespace().nth(1).unwrap_or(""));
        let why = ordering::explained(rt.alloc(), order, fault)?;
        println!(rt; "{why}")?;
        return Ok(());
    }
    let unread = &mistake.unread;
    println!(rt; "  {unread}")?;
    Ok(())
}

// A line and its answer. The line was performed, so that only memory can be wanting to read it once more.
fn print_entry(rt: &HostRuntime, reader: &Reader, entry: &Entry) -> Result<(), Fault> {
    let line = entry.line;
    println!(rt; "{line}")?;
    let Ok(call) = entry.call(reader) else {
        return Err(Fault::from(AllocError));
    };
    print_answer(rt, &call, entry.answer, reader.count as usize)
}

// Each line and its answer.
fn print_entries(rt: &HostRuntime, reader: &Reader, entries: &[Entry]) -> Result<(), Fault> {
    let mut all = Ok(());
    for entry in entries {
        if let Err(fault) = print_entry(rt, reader, entry) {
            fault.say(rt)?;
            all = Err(Fault::Said);
        }
    }
    all
}

// A table and a script. Where lines cannot be read, each is named.
pub(crate) fn replay_script(rt: &HostRuntime, table: &str, path: &str) -> Result<(), Fault> {
    let table = load(rt, table)?;
    let text = opened(rt, path, fs::read_to_string(rt, path))?;
    let heap = rt.alloc();
    let lines = lines_of(heap, text.as_str())?;
    let count = table.count() as u8;
    match replayed(heap, table, &lines) {
        Ok(replayed) => {
            let entries = entries(heap, &lines, &replayed.answers)?;
            print_entries(rt, &Reader { heap, count }, &entries)
        }
        Err(Unplayed::Mistakes(mistakes)) => {
            for mistake in &mistakes {
                print_mistake(rt, path, mistake)?;
            }
            Err(Fault::Refused(format!(in rt.alloc(); "nothing was performed")?))
        }
        Err(Unplayed::NoMemory) => Err(Fault::from(AllocError)),
    }
}
