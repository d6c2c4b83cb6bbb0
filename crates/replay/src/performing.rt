// Performing calls in their order, from the making of the book on.
ghost use Rattle.std.specs.Prelude.{◌≡◌, ◌<◌, ◌≤◌, map, vec_len, vec_capacity, MatchResult};
ghost use Rattle.book.specs.Books.{Met};
ghost use Rattle.book.specs.Runs.{Run};
ghost use Rattle.replay.specs.Exchanges.{call_of, answer_of};

use super::exchange::{Answer, Call};
use book::Book;
use forms::FormSource;

/// Performs one call, and gives its answer with what the call's buffer holds then.
pub fn perform<S: FormSource>(book: &mut Book<S>, call: Call) -> Answer
    ensures source { book.new.source ≡ book.old.source }
    ensures meets { Met (S.FormSource.rows book.old.source) book.old.pages (call_of call) (answer_of result) book.new.pages }
{
    match call {
        Call::Ask(pair) => Answer::Asked(book.ask(pair)),
        Call::Offer(relation) => Answer::Offered(book.offer(&relation)),
        Call::LookUp(pair) => Answer::LookedUp(book.look_up(pair)),
        Call::Held => Answer::Counted(book.held()),
        Call::HandOut(mut buffer) => {
            let handed = book.hand_out(&mut buffer);
            Answer::HandedOut(handed, buffer)
        }
        Call::Show(pair, mut buffer) => {
            let shown = book.show(pair, &mut buffer);
            Answer::Shown(shown, buffer)
        }
        Call::Fit {
            nodes,
            root,
            row,
            mut marks,
        } => {
            let fitted = book.fit(&nodes, root, row, &mut marks);
            Answer::Fitted(fitted, marks)
        }
        Call::Clear => Answer::Cleared(book.clear()),
    }
}

/// Makes a book over a source, performs the calls on it in their order, and gives back the book and the answers to all of them, each with what the call's buffer holds then.
/// The answers keep the law over runs (`Law`), and an open book holds the pairs that the calls leave held (`HeldBy`), so further calls on the book go on with that run.
/// If `room` has place for fewer answers than there are calls, nothing is done, and the source is given back.
pub fn replay<S: FormSource>(
    source: S,
    calls: Vec<Call>,
    room: Vec<Answer>,
) -> Result<(Book<S>, Vec<Answer>), S>
    ensures { MatchResult result (λ done. (vec_len calls ≤ vec_capacity room) × (done.0.source ≡ source) × Run (S.FormSource.rows source) done.0.pages (map call_of calls.items) (map answer_of done.1.items)) (λ back. (vec_capacity room < vec_len calls) × (back ≡ source)) }
{
    if room.capacity() < calls.len() {
        return Err(source);
    }
    let mut answers = room;
    answers.clear();
    let mut book = Book::new(source);
    for call in calls {
        let answer = perform(&mut book, call);
        answers.push_reserved(answer);
    }
    Ok((book, answers))
}
