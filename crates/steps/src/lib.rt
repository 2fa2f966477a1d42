// The event step: a turn seated on the board, by value, and on an auction that is lent; closing by hand.

#![tactic(auto)]

mod by_value;
mod lent;

pub use by_value::{close, step};
pub use lent::{apply, cancel};
