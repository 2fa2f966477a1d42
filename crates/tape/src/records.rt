// A tape's records one by one, where its trailer says that they stand. No other crate knows those places.
ghost use Rattle.std.specs.Prelude.{◌≡◌};
ghost use Rattle.tape.specs.rules.Tape.{order_in, record_in};

use crate::ORDER_BYTES;
use crate::event::{Event, event_bytes, record_at};
use crate::order::{Order, read_order};
use crate::trailer::Trailer;
use base::Refusal;

// The order; `RoomTooShort` where the bytes end before it does.
#[tactic(auto, unfolding(crate::specs::rules::Tape::order_in))]
pub fn order_in(s: &[u8], t: Trailer) -> Result<Order, Refusal>
    ensures { result ≡ order_in s.now t }
{
    read_order(s.get(t.order as usize..).unwrap_or(&[]))
}

// The event that stands in record k, counted from 0, in form or not: one of no kind where the bytes that should be zero are not, or end before the record does.
#[tactic(auto, unfolding(crate::specs::rules::Tape::record_in))]
pub fn record_in(s: &[u8], t: Trailer, k: usize) -> Event
    ensures { result ≡ record_in s.now t k }
{
    let first = (t.order as usize) + ORDER_BYTES;
    let place = k.saturating_mul(event_bytes(t.wide)).saturating_add(first);
    record_at(t.wide, s.get(place..).unwrap_or(&[]))
}
