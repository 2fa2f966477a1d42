// Records of a tape: the order, the events, the trailer; their form, reading and writing, a tape's opening, and its records one by one.

#![tactic(auto)]

mod event;
mod form;
mod kind;
mod order;
mod records;
mod side;
mod trailer;

pub use event::{Event, event_bytes, read_event, record_at, write_event};
pub use form::{event_form, order_form};
pub use kind::{Kind, UnknownKind};
pub use order::{Order, read_order, write_order};
pub use records::{order_in, record_in};
pub use side::{Mode, Side};
pub use trailer::{Trailer, last_trailer, length_of, open_tape, read_trailer, write_trailer};

// How many bytes an order's record has.
pub const ORDER_BYTES: usize = 64;
