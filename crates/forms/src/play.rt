// A tape played by the forms that document 01 names: the tape is held; a cancel, and every second other event, goes to a lent auction, the
// others to the step by value; the auction is closed by hand.
ghost use Rattle.std.specs.Prelude.{◌≡◌};
ghost use Rattle.events.specs.rules.Step.{step_of};

use crate::lines::{print_auction, print_end, print_event, print_refused};
use crate::loans::{applied, cancelled};
use crate::results::print_results;
use crate::seen::is_right;
use crate::wrong::Wrong;
use auction::Auction;
use base::Refusal;
use events::Stepped;
use tape::{Event, Kind, Trailer};

// One event by the form that is its turn: a cancel that its numbers tell whole, else by the place.
#[tactic(auto, unfolding(steps::specs::rules::Lent::cancel_event))]
fn played(auction: Auction, event: Event, place: usize) -> Stepped
    ensures { result ≡ step_of auction event }
{
    match event {
        Event {
            kind,
            marks: 0,
            side: 0,
            f16: 0,
            f20: 0,
            f24: 0,
            participant: 0,
            sequence,
            time,
            f12: named,
        } if kind == Kind::Cancel as u8 => cancelled(auction, sequence, time, named),
        _ if place % 2 == 0 => steps::step(auction, event),
        _ => applied(auction, event),
    }
}

// One event, with its line; the auction after it.
fn play_event(
    rt: &impl Print,
    before: Auction,
    event: Event,
    place: usize,
) -> Result<Auction, Wrong> {
    let Stepped { answer, auction } = played(before, event, place);
    print_event(rt, event.sequence, answer);
    if !is_right(before.board, auction.board, event.kind, answer) {
        return Err(Wrong::Board {
            sequence: event.sequence,
        });
    }
    Ok(auction)
}

// The events up to the end of the tape; the auction after them.
fn play_events(
    rt: &impl Print,
    bytes: &[u8],
    trailer: Trailer,
    opened: Auction,
) -> Result<Auction, Wrong> {
    let mut auction = opened;
    let mut place = 0;
    let mut current = reader::tape_event(bytes, trailer, place);
    while let Some(event) = current {
        auction = play_event(rt, auction, event, place)?;
        current = reader::tape_next(bytes, trailer, place);
        place += 1;
    }
    Ok(auction)
}

// The auction that the tape's order opens.
fn open(bytes: &[u8]) -> Result<(Trailer, Auction), Refusal> {
    let trailer = tape::open_tape(bytes)?;
    let auction = auction::accept(reader::tape_order(bytes, trailer)?)?;
    Ok((trailer, auction))
}

// The listing of a tape.
pub(crate) fn play_tape(rt: &impl Print, bytes: &[u8]) -> Result<(), Wrong> {
    let (trailer, opened) = match open(bytes) {
        Ok(opened) => opened,
        Err(refusal) => {
            print_refused(rt, refusal);
            return Ok(());
        }
    };
    print_auction(rt, opened.head);
    let heard = play_events(rt, bytes, trailer, opened)?;
    let closed = steps::close(heard).auction;
    print_end(rt, closed.head);
    print_results(rt, closed)
}
