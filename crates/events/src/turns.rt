// One turn: what an event does to an auction's head, and what becomes of the board. No board is copied.
ghost use Rattle.std.specs.Prelude.{◌≡◌, cond, ◌||◌, Ok};
ghost use Rattle.words.specs.rules.Bits.{clear_in};
ghost use Rattle.board.specs.rules.Board.{place_at};
ghost use Rattle.auction.specs.rules.Range.{is_open};
ghost use Rattle.decision.specs.rules.Decide.{is_cancel, is_amend};
ghost use Rattle.events.specs.rules.Step.{sight_of, event_refusal, quotes_after, market_after, offered_after, stays, ended_by_time, head_after, carried, settled, turn_of, close_turn};

use crate::{Answer, Turn};
use auction::{Ending, Head, Market, Quotes, is_open, moved_offer};
use base::Refusal;
use board::{Board, Found, free_in};
use decision::{Change, Deed, Sight, decide};
use mirror::buy_event;
use tape::{Event, Kind};

// Whether the event names a response: a cancel and an amend do.
pub fn names(e: Event) -> bool
    ensures { result ≡ (is_cancel e || is_amend e) }
{
    matches!(Kind::try_from(e.kind), Ok(Kind::Cancel | Kind::Amend))
}

// What the word of live places tells of an event, and the response that it names, as it was found.
pub fn sight_of(live: u64, named: Option<Found>) -> Sight
    ensures { result ≡ record { free = place_at (clear_in 64 live); named = named } }
{
    let free = free_in(live);
    Sight { free, named }
}

// What the board tells of an event: it is looked over for a cancel and an amend alone.
#[tactic(auto, unfolding(crate::specs::rules::Step::sight_of))]
pub fn sight(b: Board, e: Event) -> Sight
    ensures { result ≡ sight_of b e }
{
    if names(e) {
        return sight_of(b.live, board::find(b, e.f12, false));
    }
    sight_of(b.live, None)
}

// The refusals that every kind of event has, in their order.
#[tactic(auto, unfolding(crate::specs::rules::Step::event_refusal))]
fn admit(h: Head, e: Event) -> Result<(), Refusal>
    ensures { result ≡ event_refusal h e }
{
    let g = h.ending;
    if !is_open(g) {
        return Err(Refusal::AuctionEnded);
    }
    if !tape::event_form(e) {
        return Err(Refusal::EventOutOfForm);
    }
    if e.sequence <= h.sequence {
        return Err(Refusal::SequenceTaken);
    }
    if e.time < h.clock {
        return Err(Refusal::BeforeClock);
    }
    Ok(())
}

// Nothing becomes of the board.
fn stay(answer: Answer, h: Head) -> Turn
    ensures { result ≡ stays answer h }
{
    Turn {
        answer,
        head: h,
        change: Change::Nothing,
    }
}

// The head that ends by time: nothing but its ending moves.
#[tactic(auto, unfolding(crate::specs::rules::Step::ended_by_time))]
fn by_time(h: Head) -> Head
    ensures { result ≡ ended_by_time h }
{
    Head {
        ending: Ending::Time,
        ..h
    }
}

fn quotes_after(q: Quotes, c: Change) -> Quotes
    ensures { result ≡ quotes_after q c }
{
    match c {
        Change::Nothing => q,
        Change::Seat(_, _, _) => q,
        Change::Free(_, _) => q,
        Change::Quote(n) => n,
        Change::Sell(_) => q,
    }
}

fn market_after(m: Market, c: Change) -> Market
    ensures { result ≡ market_after m c }
{
    match c {
        Change::Nothing => m,
        Change::Seat(_, _, _) => m,
        Change::Free(_, _) => m,
        Change::Quote(_) => m,
        Change::Sell(n) => n,
    }
}

// The contracts on offer after a change.
fn offered_after(n: u32, c: Change) -> u32
    ensures { result ≡ offered_after n c }
{
    match c {
        Change::Nothing => n,
        Change::Seat(_, r, gone) => moved_offer(n, gone, r.size),
        Change::Free(_, gone) => moved_offer(n, gone, 0),
        Change::Quote(_) => n,
        Change::Sell(_) => n,
    }
}

// The head after an event that was taken.
#[tactic(auto, unfolding(crate::specs::rules::Step::head_after))]
fn head_after(h: Head, e: Event, c: Change, ending: Ending) -> Head
    ensures { result ≡ head_after h e c ending }
{
    Head {
        quotes: quotes_after(h.quotes, c),
        sequence: e.sequence,
        clock: e.time,
        ending,
        market: market_after(h.market, c),
        offered: offered_after(h.offered, c),
        ..h
    }
}

// Taken where the auction is open after it, ended else.
fn answer_of(g: Ending) -> Answer
    ensures { result ≡ cond (is_open g) Answer.Taken Answer.Ended }
{
    if is_open(g) {
        return Answer::Taken;
    }
    Answer::Ended
}

// What an event does, carried out.
fn carry(h: Head, e: Event, d: Deed) -> Turn
    ensures { result ≡ carried h e (Ok d) }
{
    let c = d.change;
    let g = d.ending;
    let answer = answer_of(g);
    let head = head_after(h, e, c, g);
    Turn {
        answer,
        head,
        change: c,
    }
}

// The turn of an event that is not refused: late, or by its kind.
#[tactic(auto, unfolding(crate::specs::rules::Step::turn_of))]
fn served(h: Head, s: Sight, e: Event) -> Result<Turn, Refusal>
    ensures { settled h result ≡ turn_of h s e }
{
    admit(h, e)?;
    let t = h.terms;
    if t.interval <= e.time {
        return Ok(stay(Answer::Late, by_time(h)));
    }
    let d = decide(t, h.quotes, s, buy_event(t.sell, e))?;
    Ok(carry(h, e, d))
}

// What an event does; a refusal changes nothing.
pub fn turn(h: Head, s: Sight, e: Event) -> Turn
    ensures { result ≡ turn_of h s e }
{
    match served(h, s, e) {
        Ok(u) => u,
        Err(r) => stay(Answer::Refused(r), h),
    }
}

// Closing by hand: as an event at time L.
#[tactic(auto, unfolding(crate::specs::rules::Step::close_turn))]
pub fn close_turn(h: Head) -> Turn
    ensures { result ≡ close_turn h }
{
    let g = h.ending;
    if is_open(g) {
        return stay(Answer::Late, by_time(h));
    }
    stay(Answer::Refused(Refusal::AuctionEnded), h)
}
