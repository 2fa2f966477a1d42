// Acceptance: the numbers 1 to 13, and the auction that an accepted order opens.

#![tactic(auto, unfolding(crate::specs::rules::Accept::counted_offer, crate::specs::rules::Accept::initiating_of, crate::specs::rules::Accept::tick_of, crate::specs::rules::Accept::bound_of, crate::specs::rules::Accept::guaranteed_of, crate::specs::rules::Accept::range_refusal, crate::specs::rules::Accept::buy_refusal, crate::specs::rules::Accept::order_refusal, crate::specs::rules::Accept::terms_of, crate::specs::rules::Accept::quotes_of, crate::specs::rules::Accept::opened_by, crate::specs::rules::Accept::accept_of))]

ghost use Rattle.std.specs.Prelude.{◌≡◌, cond, ◌+◌, ◌≤◌, eqb};
ghost use Rattle.auction.specs.rules.Accept.{counted_offer, initiating_of, tick_of, bound_of, first_bound, guaranteed_of, range_refusal, buy_refusal, order_refusal, terms_of, quotes_of, opened_by, accept_of};

use crate::{Auction, Ending, Head, Market, Quotes, Terms};
use base::Refusal;
use mirror::buy_order;
use tape::{Mode, Order, Side};
use words::bits::mark;

// BO as it is quoted, or what counts as BO in the initiating price: BO, or the displayed price minus the collar of a collared order on the other side.
fn offer(o: Order, counted: bool) -> u32
    ensures { result ≡ cond counted (counted_offer o) o.bo }
{
    if counted & (o.displayed != 0) {
        return o.displayed.saturating_sub(o.collar);
    }
    o.bo
}

fn initiating(o: Order) -> u32
    ensures { result ≡ initiating_of o }
{
    if o.size < 50 {
        return o.limit.min(o.nbo).min(offer(o, true).saturating_sub(1));
    }
    o.limit.min(o.nbo)
}

// The added cent.
fn tick(size: u32, bidmark: bool) -> u64
    ensures { (result ≡ tick_of size bidmark) × (result ≤ 1) }
{
    u64::from((size < 50) | bidmark)
}

// The lower bound of the range.
pub(crate) fn bound(size: u32, floor: u32, bb: u32, bidmark: bool) -> u64
    ensures { (result ≡ bound_of size floor bb bidmark) × (result ≤ 4294967296) }
{
    let f = u64::from(floor);
    let b = u64::from(bb) + tick(size, bidmark);
    f.max(b)
}

fn first_bound(o: Order) -> u64
    ensures { (result ≡ first_bound o) × (result ≤ 4294967296) }
{
    bound(o.size, o.nbb, o.bb, mark(o.marks, 2))
}

fn guaranteed(o: Order) -> u64
    ensures { (result ≡ guaranteed_of o) × (result ≤ 4294967296) }
{
    if o.mode == Mode::AutoMatch as u8 {
        return u64::from(initiating(o));
    }
    u64::from(o.stop).max(first_bound(o))
}

// Is y the price one cent above x?
fn is_next(x: u64, y: u32) -> bool
    requires { x ≤ 4294967296 }
    ensures { result ≡ eqb y (x + 1) }
{
    u64::from(y) == x + 1
}

// 10, 13, 11 and 12.
fn range_refusal(o: Order) -> Result<(), Refusal>
    ensures { result ≡ range_refusal o }
{
    let low = first_bound(o);
    let high = u64::from(initiating(o));
    let limit = u64::from(o.limit);
    let stop = u64::from(o.stop);
    if limit < low {
        return Err(Refusal::LimitBelowRange);
    }
    if high < low {
        return Err(Refusal::NoRange);
    }
    if high < stop {
        return Err(Refusal::StopAboveRange);
    }
    if (o.size < 50) & is_next(u64::from(o.nbb), o.nbo) & !is_next(guaranteed(o), o.nbo) {
        return Err(Refusal::NationalCentWide);
    }
    Ok(())
}

// 2 to 13, of a buy in form.
fn buy_refusal(o: Order) -> Result<(), Refusal>
    ensures { result ≡ buy_refusal o }
{
    if (o.nbb < o.bb) | (o.bo < o.nbo) {
        return Err(Refusal::BetterThanNational);
    }
    if o.size == 0 {
        return Err(Refusal::NoSize);
    }
    if o.time < o.opens {
        return Err(Refusal::BeforeOpen);
    }
    if u64::from(o.closes) <= u64::from(o.time) + 1000 {
        return Err(Refusal::NearClose);
    }
    if mark(o.marks, 0) {
        return Err(Refusal::Halted);
    }
    if mark(o.marks, 1) {
        return Err(Refusal::AnotherOpen);
    }
    if o.nbo <= o.nbb {
        return Err(Refusal::NationalCrossed);
    }
    if (o.size < 50) & is_next(u64::from(o.bb), offer(o, false)) {
        return Err(Refusal::ExchangeCentWide);
    }
    range_refusal(o)
}

// 1 to 13.
fn order_refusal(o: Order) -> Result<(), Refusal>
    ensures { result ≡ order_refusal o }
{
    if !tape::order_form(o) {
        return Err(Refusal::OrderOutOfForm);
    }
    buy_refusal(buy_order(o))
}

fn terms_of(sell: bool, b: Order) -> Terms
    ensures { result ≡ terms_of sell b }
{
    Terms {
        sell,
        mode: b.mode,
        size: b.size,
        initiating: initiating(b),
        floor: b.nbb,
        stop: b.stop,
        interval: b.interval,
    }
}

fn quotes_of(b: Order) -> Quotes
    ensures { result ≡ quotes_of b }
{
    Quotes {
        nbb: b.nbb,
        nbo: b.nbo,
        bb: b.bb,
        bo: b.bo,
        bidmark: mark(b.marks, 2),
        offermark: mark(b.marks, 3),
    }
}

// The open auction of a buy.
fn opened_by(sell: bool, b: Order) -> Auction
    ensures { result ≡ opened_by sell b }
{
    let terms = terms_of(sell, b);
    let quotes = quotes_of(b);
    let board = board::empty();
    Auction {
        head: Head {
            terms,
            quotes,
            sequence: 0,
            clock: 0,
            ending: Ending::Open,
            market: Market {
                sequence: 0,
                size: 0,
            },
            offered: 0,
        },
        board,
    }
}

// An order's refusal, or the auction that it opens.
pub fn accept(o: Order) -> Result<Auction, Refusal>
    ensures { result ≡ accept_of o }
{
    order_refusal(o)?;
    Ok(opened_by(o.side == Side::Sell as u8, buy_order(o)))
}
