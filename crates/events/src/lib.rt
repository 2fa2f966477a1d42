// What an event does to an auction: what it sees of the board, and one turn that carries out what is decided of it.

#![tactic(auto)]

use auction::{Auction, Head};
use base::Refusal;
use decision::Change;

pub mod turns;

// What an event is answered.
#[derive(Clone, Copy)]
pub enum Answer {
    Taken,
    Ended,
    Late,
    Refused(Refusal),
}

#[derive(Clone, Copy)]
pub struct Stepped {
    pub answer: Answer,
    pub auction: Auction,
}

// The answer to an event, the head after it, and what becomes of the board.
#[derive(Clone, Copy)]
pub struct Turn {
    pub answer: Answer,
    pub head: Head,
    pub change: Change,
}
