// A CUBE auction: what it holds, which orders are accepted, the range that holds, the contracts on offer, and the firm behind a response. The engine knows only buys: a sell is its mirror.

#![tactic(auto)]

use board::Board;

mod bounds;
mod firm;
mod offer;
mod orders;

pub use bounds::{bound_by, bound_now, is_open, price_range};
pub use firm::participant_of;
pub use offer::{moved_offer, on_offer};
pub use orders::accept;

// What is fixed at acceptance. `floor` is the NBB at initiation, `stop` the stop or auto-match limit as it was given.
#[derive(Clone, Copy)]
pub struct Terms {
    pub sell: bool,
    pub mode: u8,
    pub size: u32,
    pub initiating: u32,
    pub floor: u32,
    pub stop: u32,
    pub interval: u32,
}

// The quotes that events move; `bidmark` and `offermark` say that a Customer is at BB, at BO.
#[derive(Clone, Copy)]
pub struct Quotes {
    pub nbb: u32,
    pub nbo: u32,
    pub bb: u32,
    pub bo: u32,
    pub bidmark: bool,
    pub offermark: bool,
}

// The market order that ended an auction; of size 0 where none did.
#[derive(Clone, Copy)]
pub struct Market {
    pub sequence: u32,
    pub size: u32,
}

// Why an auction ended, or that it is open.
#[derive(Clone, Copy)]
pub enum Ending {
    Open,
    Time,
    Same,
    Opposite,
    Improve,
}

// An auction but for its board; `sequence` is the highest taken, `clock` the time of the last event taken, `offered` the contracts on offer: the sum of the live responses' sizes.
#[derive(Clone, Copy)]
pub struct Head {
    pub terms: Terms,
    pub quotes: Quotes,
    pub sequence: u32,
    pub clock: u32,
    pub ending: Ending,
    pub market: Market,
    pub offered: u32,
}

// The board comes first: after the head it would stand behind a gap of four bytes, and each tape would copy it three times more.
#[derive(Clone, Copy)]
pub struct Auction {
    pub board: Board,
    pub head: Head,
}

// Prices from low to high.
#[derive(Clone, Copy)]
pub struct Range {
    pub low: u32,
    pub high: u32,
}
