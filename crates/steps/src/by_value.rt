// The event step, by value, and closing by hand: a turn seated on the board.
ghost use Rattle.std.specs.Prelude.{◌≡◌};
ghost use Rattle.events.specs.rules.Step.{board_after, seated_on, step_of, close_of};

use auction::Auction;
use board::Board;
use decision::Change;
use events::turns::{close_turn, sight, turn};
use events::{Stepped, Turn};
use tape::Event;

// The board after a change.
fn board_after(b: Board, c: Change) -> Board
    ensures { result ≡ board_after b c }
{
    match c {
        Change::Nothing => b,
        Change::Seat(i, r, _) => board::seated(b, i, r),
        Change::Free(i, _) => board::clear(b, i),
        Change::Quote(_) => b,
        Change::Sell(_) => b,
    }
}

// A turn seated on the board: its answer, and the auction after it.
fn seat(b: Board, t: Turn) -> Stepped
    ensures { result ≡ seated_on b t }
{
    let answer = t.answer;
    let head = t.head;
    let c = t.change;
    let board = board_after(b, c);
    Stepped {
        answer,
        auction: Auction { head, board },
    }
}

// One event: the answer, and the auction after it.
pub fn step(a: Auction, e: Event) -> Stepped
    ensures { result ≡ step_of a e }
{
    let h = a.head;
    let b = a.board;
    seat(b, turn(h, sight(b, e), e))
}

// Closing by hand: as an event at time L.
pub fn close(a: Auction) -> Stepped
    ensures { result ≡ close_of a }
{
    let h = a.head;
    seat(a.board, close_turn(h))
}
