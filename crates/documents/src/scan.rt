// A scan of document text, byte by byte: where it goes on, how deep its brackets are, and how many nodes it takes.
ghost use Rattle.std.specs.Prelude.{◌≡◌, ◌+◌, ◌-◌, ◌*◌, ◌≤◌, length, if◌then◌else◌};
ghost use Rattle.documents.specs.Limits.{max_document, max_levels};
ghost use Rattle.documents.specs.Scan.{at, may_end, may_follow, closed, begun, moved, step, is_whole};
ghost use Rattle.documents.specs.declared.scan.Phase.TheVariants.{MayBegin as may_begin};
ghost use Rattle.documents.specs.Judged.{JudgedAs, marks};

use super::faults::ReadFault;
use forms::bytes::digit;
use forms::{LABELS, MAX_ROWS};

// Brackets stand in brackets at most so deep.
const MAX_LEVELS: usize = 64;

/// Where in a list the scan is.
#[derive(Clone, Copy)]
pub enum Phase {
    /// a list or nothing may come
    MayBegin,
    /// a list must come
    MustBegin,
    /// after digits of a label, which make this number
    InLabel(u8),
    /// after @
    AfterAt,
    /// after digits of a row number, which make this number
    InRow(u8),
    /// after the bracket that closes an element
    AfterElement,
}

/// Where a scan is: how many brackets are open, and where in a list it goes on. The level may be one too deep: whoever takes the step tells then that this is a fault.
#[derive(Clone, Copy)]
pub struct Scan {
    level: usize,
    phase: Phase,
}

// The number that a digit makes behind another one, if it stays below the limit and has no leading zero.
fn longer(limit: u8, number: u8, byte: u8) -> Option<u8>
    ensures { result ≡ (if may_follow limit number byte then Some (number * 10 + (byte - 48)) else None) }
{
    let value = number as usize * 10 + digit(byte)? as usize;
    if number >= 1 && value < limit as usize {
        Some(value as u8)
    } else {
        None
    }
}

impl Phase {
    // Whether the list may end here.
    fn may_end(self) -> bool
        ensures { result ≡ may_end self }
    {
        matches!(
            self,
            Phase::MayBegin | Phase::InRow(_) | Phase::AfterElement
        )
    }
}

impl Scan {
    // With so many brackets open as before.
    fn at(self, phase: Phase) -> Scan
        ensures { result ≡ at self.level phase }
    {
        Scan {
            level: self.level,
            phase,
        }
    }

    // A bracket is closed.
    fn close(self) -> Option<Scan>
        ensures { result ≡ closed self.level }
    {
        Some(Scan {
            level: self.level.checked_sub(1)?,
            phase: Phase::AfterElement,
        })
    }

    // A bracket is opened.
    fn open(self) -> Scan
        requires { self.level ≤ max_levels }
        ensures { result ≡ at (self.level + 1) may_begin }
    {
        Scan {
            level: self.level + 1,
            phase: Phase::MayBegin,
        }
    }

    // An item begins.
    fn begin(self, byte: u8) -> Option<Scan>
        ensures { result ≡ begun self.level byte }
    {
        match byte {
            b'@' => Some(self.at(Phase::AfterAt)),
            _ => Some(self.at(Phase::InLabel(digit(byte)?))),
        }
    }

    // After one byte more, which is no closing bracket.
    fn advance(self, byte: u8) -> Option<Scan>
        requires { self.level ≤ max_levels }
        ensures { result ≡ moved self.level self.phase byte }
    {
        match self.phase {
            Phase::MayBegin | Phase::MustBegin => self.begin(byte),
            Phase::InLabel(_) if byte == b'[' => Some(self.open()),
            Phase::InLabel(number) => Some(self.at(Phase::InLabel(longer(LABELS, number, byte)?))),
            Phase::AfterAt => Some(self.at(Phase::InRow(digit(byte)?))),
            Phase::InRow(number) => Some(self.at(Phase::InRow(longer(
                MAX_ROWS as u8,
                number,
                byte,
            )?))),
            Phase::AfterElement => (byte == b',').then_some(self.at(Phase::MustBegin)),
        }
    }

    // After one byte more; none where no text goes on so.
    fn next(self, byte: u8) -> Option<Scan>
        requires { self.level ≤ max_levels }
        ensures { result ≡ step (Some self) byte }
    {
        match byte {
            b']' if self.phase.may_end() => self.close(),
            b']' => None,
            _ => self.advance(byte),
        }
    }

    // Whether the text may end here.
    fn is_whole(self) -> bool
        ensures { result ≡ is_whole (Some self) }
    {
        self.level == 0 && self.phase.may_end()
    }
}

// Each element and each reference takes a node: [ and @ begin one.
fn nodes_of(byte: u8) -> usize
    ensures { result ≡ (if marks byte then 1 else 0) }
{
    usize::from(byte == b'[' || byte == b'@')
}

/// Goes through a text of at most 32,768 bytes once, and answers how many nodes its document takes, the void node in front among them; or 41 or 43, whichever is at the lower place.
pub fn judge(text: &[u8]) -> Result<usize, ReadFault>
    requires { length text.now ≤ max_document }
    ensures { JudgedAs text.now result }
{
    let mut scan = Scan {
        level: 0,
        phase: Phase::MayBegin,
    };
    let mut nodes = 1;
    for (place, byte) in text.iter().enumerate() {
        let here = place as u16;
        scan = scan.next(*byte).ok_or(ReadFault::Wrong { place: here })?;
        if scan.level > MAX_LEVELS {
            return Err(ReadFault::TooDeep { place: here });
        }
        nodes += nodes_of(*byte);
    }
    if scan.is_whole() {
        Ok(nodes)
    } else {
        Err(ReadFault::Wrong {
            place: text.len() as u16,
        })
    }
}
