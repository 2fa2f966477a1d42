// The mirror that turns a sell into a buy: orders and events as the buy's auction sees them.

#![tactic(auto)]

ghost use Rattle.std.specs.Prelude.{◌≡◌};
ghost use Rattle.mirror.specs.rules.Mirror.{with_mark, mirrored_marks, mirrored_side, mirrored_unless, mirrored_order, mirrored_priced, mirrored_market, mirrored_quotes, mirrored_amend, mirrored_event, buy_order, buy_event};

use base::mirror;
use tape::{Event, Kind, Mode, Order, Side};
use words::bits::{test, with_bit, without_bit};

// The marks with mark i set or clear.
fn with_mark(m: u64, i: usize, set: bool) -> u64
    ensures { result ≡ with_mark m i set }
{
    if set {
        return with_bit(m, i);
    }
    without_bit(m, i)
}

// Marks in the mirror: bits 2 and 3 change places.
fn mirror_marks(m: u8) -> u8
    ensures { result ≡ mirrored_marks m }
{
    let w = m as u64;
    with_mark(with_mark(w, 2, test(w, 3)), 3, test(w, 2)) as u8
}

// The other side.
#[tactic(auto, unfolding(crate::specs::rules::Mirror::mirrored_side))]
fn mirror_side(s: u8) -> u8
    ensures { result ≡ mirrored_side s }
{
    if s == Side::Buy as u8 {
        return Side::Sell as u8;
    }
    if s == Side::Sell as u8 {
        return Side::Buy as u8;
    }
    s
}

// A price in the mirror, unless there is none.
fn mirror_unless(none: bool, p: u32) -> u32
    ensures { result ≡ mirrored_unless none p }
{
    if none {
        return p;
    }
    mirror(p)
}

// There is no stop by auto-match, and no collared order where the displayed price is 0. The collar is a difference of prices.
#[tactic(auto, unfolding(crate::specs::rules::Mirror::mirrored_order))]
fn mirror_order(o: Order) -> Order
    ensures { result ≡ mirrored_order o }
{
    Order {
        side: mirror_side(o.side),
        marks: mirror_marks(o.marks),
        limit: mirror(o.limit),
        stop: mirror_unless(o.mode == Mode::AutoMatch as u8, o.stop),
        nbb: mirror(o.nbo),
        nbo: mirror(o.nbb),
        bb: mirror(o.bo),
        bo: mirror(o.bb),
        displayed: mirror_unless(o.displayed == 0, o.displayed),
        ..o
    }
}

// A response, an order or a quote with a price.
#[tactic(auto, unfolding(crate::specs::rules::Mirror::mirrored_priced))]
fn mirror_priced(e: Event) -> Event
    ensures { result ≡ mirrored_priced e }
{
    Event {
        side: mirror_side(e.side),
        f16: mirror(e.f16),
        ..e
    }
}

#[tactic(auto, unfolding(crate::specs::rules::Mirror::mirrored_market))]
fn mirror_market(e: Event) -> Event
    ensures { result ≡ mirrored_market e }
{
    Event {
        side: mirror_side(e.side),
        ..e
    }
}

#[tactic(auto, unfolding(crate::specs::rules::Mirror::mirrored_quotes))]
fn mirror_quotes(e: Event) -> Event
    ensures { result ≡ mirrored_quotes e }
{
    Event {
        marks: mirror_marks(e.marks),
        f12: mirror(e.f16),
        f16: mirror(e.f12),
        f20: mirror(e.f24),
        f24: mirror(e.f20),
        ..e
    }
}

#[tactic(auto, unfolding(crate::specs::rules::Mirror::mirrored_amend))]
fn mirror_amend(e: Event) -> Event
    ensures { result ≡ mirrored_amend e }
{
    Event {
        f20: mirror(e.f20),
        ..e
    }
}

// A cancel has nothing to mirror, and what is of no kind has no sides.
#[tactic(auto, unfolding(crate::specs::rules::Mirror::mirrored_event))]
fn mirror_event(e: Event) -> Event
    ensures { result ≡ mirrored_event e }
{
    match Kind::try_from(e.kind) {
        Ok(Kind::Gtx | Kind::Limit) => mirror_priced(e),
        Ok(Kind::Market) => mirror_market(e),
        Ok(Kind::Quotes) => mirror_quotes(e),
        Ok(Kind::Amend) => mirror_amend(e),
        Ok(Kind::Cancel) | Err(_) => e,
    }
}

// The buy that an order is for the engine.
#[tactic(auto, unfolding(crate::specs::rules::Mirror::buy_order))]
pub fn buy_order(o: Order) -> Order
    ensures { result ≡ buy_order o }
{
    if o.side == Side::Sell as u8 {
        return mirror_order(o);
    }
    o
}

// An event as the buy's auction sees it.
#[tactic(auto, unfolding(crate::specs::rules::Mirror::buy_event))]
pub fn buy_event(sell: bool, e: Event) -> Event
    ensures { result ≡ buy_event sell e }
{
    if sell {
        return mirror_event(e);
    }
    e
}
