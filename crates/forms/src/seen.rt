// Whether the board's own functions tell what an event did to it.
use board::{Board, first_free, is_live, live_count};
use events::Answer;
use tape::Kind;

// The lowest free place, looked for place by place.
fn looked_for(board: Board) -> Option<usize> {
    (0..64).find(|place| !is_live(board, *place))
}

// A response was taken: one more place is live, the lowest that was free.
fn one_more(before: Board, after: Board) -> bool {
    let stands = first_free(before).is_some_and(|place| is_live(after, place));
    u64::from(live_count(after)) == u64::from(live_count(before)) + 1 && stands
}

// A response was cancelled: one place fewer is live.
fn one_fewer(before: Board, after: Board) -> bool {
    u64::from(live_count(after)) + 1 == u64::from(live_count(before))
}

// Of an event that was taken, by its kind: an amend takes no place and frees none, a limit order may take a place or none.
fn is_taken(before: Board, after: Board, kind: u8) -> bool {
    match Kind::try_from(kind) {
        Ok(Kind::Gtx) => one_more(before, after),
        Ok(Kind::Cancel) => one_fewer(before, after),
        Ok(Kind::Amend) => before.live == after.live,
        _ => true,
    }
}

pub(crate) fn is_right(before: Board, after: Board, kind: u8, answer: Answer) -> bool {
    if first_free(after) != looked_for(after) {
        return false;
    }
    match answer {
        Answer::Taken => is_taken(before, after, kind),
        Answer::Ended => true,
        Answer::Late | Answer::Refused(_) => before.live == after.live,
    }
}
