// Lists of calls, performed on a book of their own.
use super::tables::{TABLE, TWO_PAIRS};
use book::types::Verdict;
use forms::FormSource;
use replay::exchange::{Answer, Call};
use replay::performing::replay;
use std::alloc::Global;
use std::test::Fail;
use texts::RowText;

fn some_calls(heap: Global) -> Result<Vec<Call>, Fail> {
    let mut calls = Vec::new(heap);
    let relation = TWO_PAIRS.to_vec(heap)?;
    let buffer = [0; 2].to_vec(heap)?;
    for call in [
        Call::Ask((1, 2)),
        Call::Offer(relation),
        Call::Held,
        Call::HandOut(buffer),
        Call::Clear,
        Call::LookUp((1, 2)),
    ] {
        calls.push(call).ok().ok_or("memory")?;
    }
    Ok(calls)
}

fn right_answers(heap: Global) -> Result<[Answer; 6], Fail> {
    let handed = TWO_PAIRS.to_vec(heap)?;
    Ok([
        Answer::Asked(Ok((Verdict::Yes, 2))),
        Answer::Offered(Ok(0)),
        Answer::Counted(Ok(2)),
        Answer::HandedOut(Ok(2), handed),
        Answer::Cleared(Ok(())),
        Answer::LookedUp(Ok(None)),
    ])
}

#[test]
fn replayed(rt: HostRuntime) -> Result<(), Fail> {
    let calls = some_calls(rt.alloc())?;
    let room = Vec::with_capacity(rt.alloc(), 6)?;
    let Ok((mut book, answers)) = replay(RowText::new(TABLE), calls, room) else {
        return Err(Fail::new("there is room enough"));
    };
    let right = right_answers(rt.alloc())?;
    assert_eq!(rt; answers.as_slice(), right.as_slice());
    // the run goes on with the book that is given back
    assert_eq!(rt; book.held(), Ok(0));
    assert_eq!(rt; book.ask((1, 2)), Ok((Verdict::Yes, 2)));
    Ok(())
}

#[test]
fn too_little_room(rt: HostRuntime) -> Result<(), Fail> {
    let calls = some_calls(rt.alloc())?;
    let room = Vec::new(rt.alloc());
    let Err(source) = replay(RowText::new(TABLE), calls, room) else {
        return Err(Fail::new("there is no room"));
    };
    assert_eq!(rt; source.count(), 10);
    Ok(())
}
