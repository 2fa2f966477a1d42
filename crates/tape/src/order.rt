// The order record, 64 bytes.
ghost use Rattle.std.specs.Prelude.{◌≡◌, ◌≤◌, length};
ghost use Rattle.tape.specs.rules.Records.{order_of, order_spare, read_order, order_answer, order_wrote};

use crate::ORDER_BYTES;
use crate::form::order_form;
use base::Refusal;
use words::bytes::{join, read_word, write_words};

// An order as it was recorded. `stop` is the stop or the auto-match limit, `interval` is L; `displayed` and `collar` are the displayed price of a collared order on the other side and one Trading Collar, both zero where there is none.
#[derive(Clone, Copy)]
pub struct Order {
    pub side: u8,
    pub mode: u8,
    pub marks: u8,
    pub size: u32,
    pub limit: u32,
    pub stop: u32,
    pub nbb: u32,
    pub nbo: u32,
    pub bb: u32,
    pub bo: u32,
    pub time: u32,
    pub opens: u32,
    pub closes: u32,
    pub interval: u32,
    pub displayed: u32,
    pub collar: u32,
}

// The bytes that no field has are zero.
#[tactic(auto, unfolding(crate::specs::rules::Records::order_spare))]
fn order_spare(s: &[u8]) -> bool
    requires { 64 ≤ length s.now }
    ensures { result ≡ order_spare s.now }
{
    (s[3] == 0) & (read_word(s, 56) == 0) & (read_word(s, 60) == 0)
}

// The fields, in their places.
#[tactic(auto, unfolding(crate::specs::rules::Records::order_of))]
fn order_of(s: &[u8]) -> Order
    requires { 64 ≤ length s.now }
    ensures { result ≡ order_of s.now }
{
    Order {
        side: s[0],
        mode: s[1],
        marks: s[2],
        size: read_word(s, 4),
        limit: read_word(s, 8),
        stop: read_word(s, 12),
        nbb: read_word(s, 16),
        nbo: read_word(s, 20),
        bb: read_word(s, 24),
        bo: read_word(s, 28),
        time: read_word(s, 32),
        opens: read_word(s, 36),
        closes: read_word(s, 40),
        interval: read_word(s, 44),
        displayed: read_word(s, 48),
        collar: read_word(s, 52),
    }
}

// The order at the start of lent bytes: `RoomTooShort`, then `OrderOutOfForm`.
#[tactic(auto, unfolding(crate::specs::rules::Records::read_order))]
pub fn read_order(s: &[u8]) -> Result<Order, Refusal>
    ensures { result ≡ read_order s.now }
{
    if s.len() < ORDER_BYTES {
        return Err(Refusal::RoomTooShort);
    }
    let o = order_of(s);
    if order_spare(s) & order_form(o) {
        Ok(o)
    } else {
        Err(Refusal::OrderOutOfForm)
    }
}

// The order into the start of lent bytes: `OrderOutOfForm`, then `RoomTooShort`; a refusal changes no byte.
#[tactic(auto, unfolding(crate::specs::rules::Records::order_answer, crate::specs::rules::Records::order_wrote, crate::specs::rules::Records::order_words))]
pub fn write_order(o: Order, out: &mut [u8]) -> Result<(), Refusal>
    ensures value { result ≡ order_answer o out.old }
    ensures out_after { out.new ≡ order_wrote o out.old }
{
    if !order_form(o) {
        return Err(Refusal::OrderOutOfForm);
    }
    if out.len() < ORDER_BYTES {
        return Err(Refusal::RoomTooShort);
    }
    let words = [
        join(o.side, o.mode, o.marks, 0),
        o.size,
        o.limit,
        o.stop,
        o.nbb,
        o.nbo,
        o.bb,
        o.bo,
        o.time,
        o.opens,
        o.closes,
        o.interval,
        o.displayed,
        o.collar,
        0,
        0,
    ];
    write_words(out, 0, &words);
    Ok(())
}
