// What is decided of an event of a buy's auction, on small values.

#![tactic(auto)]

ghost use Rattle.std.specs.Prelude.{◌≡◌, cond, ltb};
ghost use Rattle.decision.specs.rules.Decide.{does, seats, places, gtx_outcome, cancel_outcome, amended_by, amend_outcome, sell_limit_outcome, bid_quotes, moves, buy_limit_outcome, limit_outcome, market_outcome, new_quotes, quotes_outcome, outcome_of, response_of, is_non_routable};
ghost use Rattle.auction.specs.rules.Range.{bound_by};

use auction::{Ending, Market, Quotes, Terms, bound_by};
use base::Refusal;
use board::{Found, Response};
use tape::{Event, Kind, Side};
use words::bits::mark;

// What the board tells of an event: the place that a response would take, and the GTX that is named.
#[derive(Clone, Copy)]
pub struct Sight {
    pub free: Option<usize>,
    pub named: Option<Found>,
}

// What an event changes besides the sequence, the clock and the ending: a response takes a place, a place is freed, the quotes or the market order are new. The last number of `Seat` and of `Free` is the size of the live response that is gone from the place; 0 where none is.
#[derive(Clone, Copy)]
pub enum Change {
    Nothing,
    Seat(usize, Response, u32),
    Free(usize, u32),
    Quote(Quotes),
    Sell(Market),
}

// What an event does that is not refused: its change, and the ending after it.
#[derive(Clone, Copy)]
pub struct Deed {
    pub change: Change,
    pub ending: Ending,
}

// It is not refused.
fn does(change: Change, ending: Ending) -> Result<Deed, Refusal>
    ensures { result ≡ does change ending }
{
    Ok(Deed { change, ending })
}

// A response of a size: a GTX one, or a limit order.
fn response(gtx: bool, size: u32, e: Event) -> Response
    ensures { result ≡ response_of gtx size e }
{
    Response {
        sequence: e.sequence,
        size,
        price: e.f16,
        participant: e.participant,
        customer: mark(e.marks, 0),
        gtx,
    }
}

// A response stands at a place, from which a size is gone; it is refused where there is no such place.
fn seat(
    place: usize,
    r: Response,
    gone: u32,
    ending: Ending,
    none: Refusal,
) -> Result<Deed, Refusal>
    ensures { result ≡ seats place r gone ending none }
{
    if place < 64 {
        return does(Change::Seat(place, r, gone), ending);
    }
    Err(none)
}

// A response has to be placed: at the lowest free place, and the board is full where there is none.
fn place(s: Sight, r: Response, ending: Ending) -> Result<Deed, Refusal>
    ensures { result ≡ places s r ending }
{
    let free = s.free.ok_or(Refusal::BoardFull)?;
    seat(free, r, 0, ending, Refusal::BoardFull)
}

#[tactic(auto, unfolding(crate::specs::rules::Decide::gtx_outcome))]
fn gtx(t: Terms, s: Sight, e: Event) -> Result<Deed, Refusal>
    ensures { result ≡ gtx_outcome t s e }
{
    if e.side == Side::Buy as u8 {
        return Err(Refusal::OwnSide);
    }
    if t.initiating < e.f16 {
        return Err(Refusal::AboveInitiating);
    }
    place(s, response(true, e.f12.min(t.size), e), Ending::Open)
}

#[tactic(auto, unfolding(crate::specs::rules::Decide::cancel_outcome))]
fn cancel(s: Sight) -> Result<Deed, Refusal>
    ensures { result ≡ cancel_outcome s }
{
    let named = s.named.ok_or(Refusal::NoSuchResponse)?;
    let old = named.response;
    if named.place < 64 {
        return does(Change::Free(named.place, old.size), Ending::Open);
    }
    Err(Refusal::NoSuchResponse)
}

// The response that an amend makes of an old one: its Customer mark stays.
fn amended(t: Terms, old: Response, e: Event) -> Response
    ensures { result ≡ amended_by t old e }
{
    Response {
        sequence: e.sequence,
        size: e.f16.min(t.size),
        price: e.f20,
        participant: e.participant,
        customer: old.customer,
        gtx: true,
    }
}

#[tactic(auto, unfolding(crate::specs::rules::Decide::amend_outcome))]
fn amend(t: Terms, s: Sight, e: Event) -> Result<Deed, Refusal>
    ensures { result ≡ amend_outcome t s e }
{
    if t.initiating < e.f20 {
        return Err(Refusal::AboveInitiating);
    }
    let none = Refusal::NoSuchResponse;
    let named = s.named.ok_or(none)?;
    let old = named.response;
    let r = amended(t, old, e);
    seat(named.place, r, old.size, Ending::Open, none)
}

// One of two prices: the exchange's for a non-routable order, the nation's else.
fn market_price(e: Event, own: u32, national: u32) -> u32
    ensures { result ≡ cond (is_non_routable e) own national }
{
    if mark(e.marks, 1) {
        return own;
    }
    national
}

fn opposite_if(marketable: bool) -> Ending
    ensures { result ≡ cond marketable Ending.Opposite Ending.Open }
{
    if marketable {
        return Ending::Opposite;
    }
    Ending::Open
}

#[tactic(auto, unfolding(crate::specs::rules::Decide::sell_limit_outcome))]
fn sell_limit(t: Terms, q: Quotes, s: Sight, e: Event) -> Result<Deed, Refusal>
    ensures { result ≡ sell_limit_outcome t q s e }
{
    let ending = opposite_if(e.f16 <= market_price(e, q.bb, q.nbb));
    if e.f16 <= t.initiating {
        return place(s, response(false, e.f12, e), ending);
    }
    does(Change::Nothing, ending)
}

// The mark at BB after a bid.
#[tactic(auto, unfolding(crate::specs::rules::Decide::bid_quotes))]
fn bid_mark(q: Quotes, price: u32, customer: bool) -> bool
    ensures { result ≡ (bid_quotes q price customer).bidmark }
{
    if q.bb < price {
        return customer;
    }
    q.bidmark | ((price == q.bb) & customer)
}

// The quotes with a bid.
#[tactic(auto, unfolding(crate::specs::rules::Decide::bid_quotes))]
fn bid_quotes(q: Quotes, price: u32, customer: bool) -> Quotes
    ensures { result ≡ bid_quotes q price customer }
{
    Quotes {
        nbb: q.nbb.max(price),
        bb: q.bb.max(price),
        bidmark: bid_mark(q, price, customer),
        ..q
    }
}

// Would a bid raise BB, or set its mark at an equal price?
fn is_move(q: Quotes, price: u32, customer: bool) -> bool
    ensures { result ≡ moves q price customer }
{
    (q.bb < price) | ((price == q.bb) & customer & !q.bidmark)
}

// Does the bound that quotes make exceed the initiating price?
fn exceeds(t: Terms, q: Quotes) -> bool
    ensures { result ≡ ltb t.initiating (bound_by t q) }
{
    u64::from(t.initiating) < bound_by(t, q)
}

#[tactic(auto, unfolding(crate::specs::rules::Decide::buy_limit_outcome))]
fn buy_limit(t: Terms, q: Quotes, e: Event) -> Result<Deed, Refusal>
    ensures { result ≡ buy_limit_outcome t q e }
{
    if market_price(e, q.bo, q.nbo) <= e.f16 {
        return does(Change::Nothing, Ending::Same);
    }
    let customer = mark(e.marks, 0);
    let n = bid_quotes(q, e.f16, customer);
    if is_move(q, e.f16, customer) & exceeds(t, n) {
        return does(Change::Nothing, Ending::Improve);
    }
    does(Change::Quote(n), Ending::Open)
}

#[tactic(auto, unfolding(crate::specs::rules::Decide::limit_outcome))]
fn limit(t: Terms, q: Quotes, s: Sight, e: Event) -> Result<Deed, Refusal>
    ensures { result ≡ limit_outcome t q s e }
{
    if e.side == Side::Buy as u8 {
        return buy_limit(t, q, e);
    }
    sell_limit(t, q, s, e)
}

#[tactic(auto, unfolding(crate::specs::rules::Decide::market_outcome))]
fn market(e: Event) -> Result<Deed, Refusal>
    ensures { result ≡ market_outcome e }
{
    if e.side == Side::Buy as u8 {
        return does(Change::Nothing, Ending::Same);
    }
    let m = Market {
        sequence: e.sequence,
        size: e.f12,
    };
    does(Change::Sell(m), Ending::Opposite)
}

// The quotes that an event brings.
#[tactic(auto, unfolding(crate::specs::rules::Decide::new_quotes))]
fn new_quotes(e: Event) -> Quotes
    ensures { result ≡ new_quotes e }
{
    Quotes {
        nbb: e.f12,
        nbo: e.f16,
        bb: e.f20,
        bo: e.f24,
        bidmark: mark(e.marks, 2),
        offermark: mark(e.marks, 3),
    }
}

#[tactic(auto, unfolding(crate::specs::rules::Decide::quotes_outcome))]
fn quotes(t: Terms, e: Event) -> Result<Deed, Refusal>
    ensures { result ≡ quotes_outcome t e }
{
    let n = new_quotes(e);
    if exceeds(t, n) {
        return does(Change::Nothing, Ending::Improve);
    }
    does(Change::Quote(n), Ending::Open)
}

// The decision on an event, by its kind; what is of no kind never gets here, and is taken as quotes.
#[tactic(auto, unfolding(crate::specs::rules::Decide::outcome_of))]
pub fn decide(t: Terms, q: Quotes, s: Sight, e: Event) -> Result<Deed, Refusal>
    ensures { result ≡ outcome_of t q s e }
{
    match Kind::try_from(e.kind) {
        Ok(Kind::Gtx) => gtx(t, s, e),
        Ok(Kind::Cancel) => cancel(s),
        Ok(Kind::Limit) => limit(t, q, s, e),
        Ok(Kind::Market) => market(e),
        Ok(Kind::Amend) => amend(t, s, e),
        Ok(Kind::Quotes) | Err(_) => quotes(t, e),
    }
}
