// The stated form of an order and of an event.
ghost use Rattle.std.specs.Prelude.{◌≡◌, true};
ghost use Rattle.tape.specs.rules.Form.{all_from, collar_formed, order_formed, inside, shape_tests, event_formed};

use crate::event::Event;
use crate::kind::Kind;
use crate::order::Order;
use crate::side::{Mode, Side};
use words::bits::mark;

// There is no collared order, or its displayed price, the collar and the result are prices. The result of a sell is their sum; that of a buy, the difference, is a price where the collar is below the displayed price.
fn collar_form(side: u8, displayed: u32, collar: u32) -> bool
    ensures { result ≡ collar_formed side displayed collar }
{
    let sum = u64::from(displayed) + u64::from(collar);
    ((displayed == 0) & (collar == 0))
        | (((1 <= displayed) & (displayed <= 999999))
            & (1 <= collar)
            & (((side == Side::Sell as u8) & (sum <= 999999))
                | ((side != Side::Sell as u8) & (collar < displayed))))
}

// Every field of an order is in its range: one test with no branch.
#[tactic(auto, unfolding(crate::specs::rules::Form::order_formed, crate::specs::rules::Form::order_tests))]
pub fn order_form(o: Order) -> bool
    ensures { result ≡ order_formed o }
{
    ((Side::Buy as u8 <= o.side) & (o.side <= Side::Sell as u8))
        & ((Mode::Stop as u8 <= o.mode) & (o.mode <= Mode::AutoMatchLimit as u8))
        & (o.marks <= 15)
        & (o.size <= 100000)
        & ((1 <= o.limit) & (o.limit <= 999999))
        & (((o.mode == Mode::AutoMatch as u8) & (o.stop == 0))
            | ((o.mode != Mode::AutoMatch as u8) & ((1 <= o.stop) & (o.stop <= 999999))))
        & ((1 <= o.nbb) & (o.nbb <= 999999))
        & ((1 <= o.nbo) & (o.nbo <= 999999))
        & (o.bb <= 999999)
        & ((1 <= o.bo) & (o.bo <= 1000000))
        & (o.time <= 86400000)
        & (o.opens < o.closes)
        & (o.closes <= 86400000)
        & ((100 <= o.interval) & (o.interval <= 1000))
        & collar_form(o.side, o.displayed, o.collar)
}

// From low to high, both included.
#[derive(Clone, Copy)]
struct Range {
    low: u32,
    high: u32,
}

// What an event of a kind may hold; `low`: mark bits 0 and 1 may be set.
#[derive(Clone, Copy)]
struct Shape {
    marks: Range,
    low: bool,
    side: Range,
    f12: Range,
    f16: Range,
    f20: Range,
    f24: Range,
}

const UNUSED: Range = Range { low: 0, high: 0 };

const SIDES: Range = Range { low: 1, high: 2 };

const SIZES: Range = Range {
    low: 1,
    high: 100000,
};

const PRICES: Range = Range {
    low: 1,
    high: 999999,
};

const ANY: Range = Range {
    low: 0,
    high: 4294967295,
};

const BIDS: Range = Range {
    low: 0,
    high: 999999,
};

const OFFERS: Range = Range {
    low: 1,
    high: 1000000,
};

// The rows of the table of kinds.
const GTX: Shape = Shape {
    marks: Range { low: 0, high: 1 },
    low: true,
    side: SIDES,
    f12: SIZES,
    f16: PRICES,
    f20: UNUSED,
    f24: UNUSED,
};

const CANCEL: Shape = Shape {
    marks: UNUSED,
    low: true,
    side: UNUSED,
    f12: ANY,
    f16: UNUSED,
    f20: UNUSED,
    f24: UNUSED,
};

const LIMIT: Shape = Shape {
    marks: Range { low: 0, high: 3 },
    low: true,
    side: SIDES,
    f12: SIZES,
    f16: PRICES,
    f20: UNUSED,
    f24: UNUSED,
};

const MARKET: Shape = Shape {
    marks: Range { low: 0, high: 1 },
    low: true,
    side: SIDES,
    f12: SIZES,
    f16: UNUSED,
    f20: UNUSED,
    f24: UNUSED,
};

const QUOTES: Shape = Shape {
    marks: Range { low: 0, high: 15 },
    low: false,
    side: UNUSED,
    f12: PRICES,
    f16: PRICES,
    f20: BIDS,
    f24: OFFERS,
};

const AMEND: Shape = Shape {
    marks: UNUSED,
    low: true,
    side: UNUSED,
    f12: ANY,
    f16: SIZES,
    f20: PRICES,
    f24: UNUSED,
};

fn within(x: u32, r: Range) -> bool
    ensures { result ≡ inside x r }
{
    (r.low..=r.high).contains(&x)
}

// An event's fields fit a row of the table.
#[tactic(auto, unfolding(crate::specs::rules::Form::shape_tests))]
fn fits(e: Event, s: Shape) -> bool
    ensures { result ≡ all_from true (shape_tests s e) }
{
    (e.time <= 86400000)
        & within(u32::from(e.marks), s.marks)
        & (s.low | (!mark(e.marks, 0) & !mark(e.marks, 1)))
        & within(u32::from(e.side), s.side)
        & within(e.f12, s.f12)
        & within(e.f16, s.f16)
        & within(e.f20, s.f20)
        & within(e.f24, s.f24)
}

// An event is in the form of its kind, and in none where its byte names no kind: the kind is told first, so that each row is tested on constants.
#[tactic(auto, using(crate::proofs::KindLaws::unknown_unformed), unfolding(crate::specs::rules::Form::event_formed, crate::specs::rules::Form::shape_of))]
pub fn event_form(e: Event) -> bool
    ensures { result ≡ event_formed e }
{
    match Kind::try_from(e.kind) {
        Ok(Kind::Gtx) => fits(e, GTX),
        Ok(Kind::Cancel) => fits(e, CANCEL),
        Ok(Kind::Limit) => fits(e, LIMIT),
        Ok(Kind::Market) => fits(e, MARKET),
        Ok(Kind::Quotes) => fits(e, QUOTES),
        Ok(Kind::Amend) => fits(e, AMEND),
        Err(_) => false,
    }
}
