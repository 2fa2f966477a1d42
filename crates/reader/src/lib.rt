// A tape that is held: the lent bytes with the trailer, which has the order's offset, and the place of an event. The functions with plain parameters are thin, over those of a held tape.

#![tactic(auto)]

ghost use Rattle.std.specs.Prelude.{◌≡◌};
ghost use Rattle.tape.specs.rules.Tape.{order_in};
ghost use Rattle.reader.specs.rules.Reader.{current_of, next_place, held, next_of};

use base::Refusal;
use tape::{Event, Order, Trailer};

// The bytes of a tape, its trailer, and the place of an event, counted from 0.
#[derive(Clone, Copy)]
pub struct Tape<'a> {
    pub bytes: &'a [u8],
    pub trailer: Trailer,
    pub place: usize,
}

// ---- over a tape that is held

// A tape that was opened, held at the place of an event.
pub fn hold<'a>(bytes: &'a [u8], t: Trailer, place: usize) -> Tape<'a>
    ensures { result ≡ held bytes.entry t place }
{
    Tape {
        bytes,
        trailer: t,
        place,
    }
}

// The order.
pub fn held_order<'a>(t: Tape<'a>) -> Result<Order, Refusal>
    ensures { result ≡ order_in t.entry.bytes.now t.entry.trailer }
{
    tape::order_in(t.bytes, t.trailer)
}

// The event at the place, in form or not, or `None` at the end.
#[tactic(auto, unfolding(crate::specs::rules::Reader::current_of))]
pub fn current_event<'a>(t: Tape<'a>) -> Option<Event>
    ensures { result ≡ current_of t.entry.bytes.now t.entry.trailer t.entry.place }
{
    if t.place < t.trailer.events as usize {
        Some(tape::record_in(t.bytes, t.trailer, t.place))
    } else {
        None
    }
}

// The tape at the next place; the end is the last.
#[tactic(auto, unfolding(crate::specs::rules::Reader::next_place))]
pub fn next<'a>(t: Tape<'a>) -> Tape<'a>
    ensures { result ≡ next_of t.entry }
{
    if t.place < t.trailer.events as usize {
        Tape {
            place: t.place + 1,
            ..t
        }
    } else {
        t
    }
}

// ---- with plain parameters: who calls these needs no walk

// The order of lent bytes, by their trailer.
pub fn tape_order(bytes: &[u8], t: Trailer) -> Result<Order, Refusal>
    ensures { result ≡ order_in bytes.now t }
{
    held_order(hold(bytes, t, 0))
}

// The event at a place of lent bytes, by their trailer; `None` from the end on.
pub fn tape_event(bytes: &[u8], t: Trailer, place: usize) -> Option<Event>
    ensures { result ≡ current_of bytes.now t place }
{
    current_event(hold(bytes, t, place))
}

// The event after a place; `None` from the end on.
pub fn tape_next(bytes: &[u8], t: Trailer, place: usize) -> Option<Event>
    ensures { result ≡ current_of bytes.now t (next_place t place) }
{
    current_event(next(hold(bytes, t, place)))
}
