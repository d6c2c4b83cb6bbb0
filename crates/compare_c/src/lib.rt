// The question about two tables of forms, exported to C: include/formbook.h has its prototype.
#![tactic(auto)]

ghost use Rattle.std.specs.Prelude.{◌≡◌};
ghost use Rattle.relation.specs.Sources.{JoinedIsAdmitted, TurnedIsAdmitted};
ghost use Rattle.compare.specs.Comparing.{Compares, ZeroIsYes};
ghost use Rattle.compare.specs.Reasons.{OneFault, FaultOrAnswer, OneMeaning};

use compare::questions::Question;

/// What `compare::compare` answers to the question that these arguments are, in the order of its fields.
///
/// `ours` and `theirs` are row texts, in bytes; `p` and `q` rows of them, counted from 0; `t` is 0 for theirs as it stands.
/// 0 is yes; 1 + 65,536 × n is no, where the buffer begins with an order's text of n bytes; any other number is
/// code + 256 × layer + 65,536 × place of the first fault.
// It takes numbers and byte slices and answers one packed 64-bit number, since programs in C are built against this very
// shape: a struct or an enum here would have to be declared once more in C, and nothing would compare the two.
#[unsafe(no_mangle)]
pub extern "C" fn compare(
    ours: &[u8],
    theirs: &[u8],
    p: u64,
    q: u64,
    t: u64,
    buffer: &mut [u8],
) -> u64
    ensures compares { Compares (record { ours = ours.now; theirs = theirs.now; p = p; q = q; t = t }) buffer.old buffer.new result }
    ensures laws { (ZeroIsYes) × ((OneFault) × ((FaultOrAnswer) × ((OneMeaning) × ((JoinedIsAdmitted) × (TurnedIsAdmitted))))) }
{
    let question = Question {
        ours,
        theirs,
        p,
        q,
        t,
    };
    compare::compare(question, buffer)
}
