// Runs the readers, the writers and the opening of `tape`, and the moves of `moving`, on cases from standard input, and prints each answer on a line.
//
// A case is five words (what to run, v, n, h, t), v bytes of values, then h bytes for the start and t bytes for the end of the
// n lent bytes; the bytes between are zero.

#![tactic(auto)]

use base::Refusal;
use std::io::Read;
use std::ops::Range;
use words::bytes::read_word;

// ---- printing: a write that fails is left at that

fn text(rt: &impl Print, s: &str) {
    let _ = rt.print(s);
}

fn number(rt: &impl Print, n: u32) {
    let _ = print!(rt; " {n}");
}

fn refused(rt: &impl Print, refusal: Refusal) {
    let _ = print!(rt; "refused {refusal}");
}

// All bytes, in decimal.
fn bytes(rt: &impl Print, s: &[u8]) {
    for byte in s {
        number(rt, u32::from(*byte));
    }
}

// Are the first bytes of a case those that were written back?
fn same(rt: &impl Print, s: &[u8], back: &[u8]) {
    let word = if s.starts_with(back) {
        " same"
    } else {
        " differs"
    };
    text(rt, word);
}

fn written(rt: &impl Print, answer: Result<(), Refusal>) {
    match answer {
        Ok(()) => text(rt, "done"),
        Err(refusal) => refused(rt, refusal),
    }
}

// ---- reading: the values, and whether they write back to the same bytes

fn order_values(rt: &impl Print, o: tape::Order) {
    text(rt, "order");
    bytes(rt, &[o.side, o.mode, o.marks]);
    let values = [
        o.size,
        o.limit,
        o.stop,
        o.nbb,
        o.nbo,
        o.bb,
        o.bo,
        o.time,
        o.opens,
        o.closes,
        o.interval,
        o.displayed,
        o.collar,
    ];
    for value in values {
        number(rt, value);
    }
}

fn order(rt: &impl Print, s: &[u8]) {
    match tape::read_order(s) {
        Ok(o) => {
            order_values(rt, o);
            let mut back = [0u8; 64];
            let _ = tape::write_order(o, &mut back);
            same(rt, s, &back);
        }
        Err(refusal) => refused(rt, refusal),
    }
}

fn event_values(rt: &impl Print, e: tape::Event) {
    text(rt, "event");
    number(rt, e.sequence);
    number(rt, e.time);
    bytes(rt, &[e.kind, e.marks, e.side]);
    for value in [e.f12, e.f16, e.f20, e.f24, e.participant] {
        number(rt, value);
    }
}

fn event(rt: &impl Print, wide: bool, s: &[u8]) {
    match tape::read_event(wide, s) {
        Ok(e) => {
            event_values(rt, e);
            let mut longest = [0u8; 40];
            let n = tape::event_bytes(wide);
            let back = &mut longest[..n];
            let _ = tape::write_event(wide, e, back);
            same(rt, s, back);
        }
        Err(refusal) => refused(rt, refusal),
    }
}

fn trailer_values(rt: &impl Print, word: &str, t: tape::Trailer) {
    let form = if t.wide { "new" } else { "old" };
    let _ = print!(rt; "{word} {form} {} {}", t.order, t.events);
}

fn trailer(rt: &impl Print, s: &[u8]) {
    match tape::read_trailer(s) {
        Ok(t) => {
            trailer_values(rt, "trailer", t);
            let mut back = [0u8; 16];
            let _ = tape::write_trailer(t, &mut back);
            same(rt, s, &back);
        }
        Err(refusal) => refused(rt, refusal),
    }
}

fn opened(rt: &impl Print, s: &[u8]) {
    match tape::open_tape(s) {
        Ok(t) => trailer_values(rt, "tape", t),
        Err(refusal) => refused(rt, refusal),
    }
}

// ---- writing: the answer, and all lent bytes

fn byte(v: &[u8], at: usize) -> u8 {
    (read_word(v, at) % 256) as u8
}

fn order_from(v: &[u8]) -> tape::Order {
    tape::Order {
        side: byte(v, 0),
        mode: byte(v, 4),
        marks: byte(v, 8),
        size: read_word(v, 12),
        limit: read_word(v, 16),
        stop: read_word(v, 20),
        nbb: read_word(v, 24),
        nbo: read_word(v, 28),
        bb: read_word(v, 32),
        bo: read_word(v, 36),
        time: read_word(v, 40),
        opens: read_word(v, 44),
        closes: read_word(v, 48),
        interval: read_word(v, 52),
        displayed: read_word(v, 56),
        collar: read_word(v, 60),
    }
}

fn event_from(v: &[u8]) -> tape::Event {
    tape::Event {
        sequence: read_word(v, 0),
        time: read_word(v, 4),
        kind: byte(v, 8),
        marks: byte(v, 12),
        side: byte(v, 16),
        f12: read_word(v, 20),
        f16: read_word(v, 24),
        f20: read_word(v, 28),
        f24: read_word(v, 32),
        participant: read_word(v, 36),
    }
}

fn put_order(rt: &impl Print, v: &[u8], lent: &mut [u8]) {
    written(rt, tape::write_order(order_from(v), lent));
    bytes(rt, lent);
}

fn put_event(rt: &impl Print, wide: bool, v: &[u8], lent: &mut [u8]) {
    written(rt, tape::write_event(wide, event_from(v), lent));
    bytes(rt, lent);
}

fn put_trailer(rt: &impl Print, wide: bool, v: &[u8], lent: &mut [u8]) {
    let t = tape::Trailer {
        order: read_word(v, 0),
        events: read_word(v, 4),
        wide,
    };
    written(rt, tape::write_trailer(t, lent));
    bytes(rt, lent);
}

// ---- moving the tape that the lent bytes are: the answer, and all bytes of a room of as many bytes as the first value says

fn moved(rt: &impl Print, answer: Result<u64, Refusal>) {
    match answer {
        Ok(n) => {
            let _ = print!(rt; "moved {n}");
        }
        Err(refusal) => refused(rt, refusal),
    }
}

// The bytes of the room, which are sevens before it is moved into; of a long one only those at its end.
fn move_to(rt: &impl Print, wide: bool, v: &[u8], s: &[u8]) {
    let mut longest = [7u8; 65540];
    let n = read_word(v, 0) as usize;
    let Some(room) = longest.get_mut(..n) else {
        return;
    };
    moved(rt, moving::move_tape(wide, s, room));
    let shown = if n < 400 { 0 } else { n - 24 };
    bytes(rt, &room[shown..]);
}

// ---- a case

// Where there is one for each form, the new one's number is ten higher.
fn run(rt: &impl Print, what: u32, v: &[u8], lent: &mut [u8]) {
    let wide = 10 < what;
    match what {
        1 => order(rt, lent),
        2 | 12 => event(rt, wide, lent),
        3 => trailer(rt, lent),
        4 => opened(rt, lent),
        5 => put_order(rt, v, lent),
        6 | 16 => put_event(rt, wide, v, lent),
        8 | 18 => move_to(rt, wide, v, lent),
        _ => put_trailer(rt, wide, v, lent),
    }
}

// Bytes of standard input into a part of a slice, if it has that part; what a case that is cut off lacks stays zero.
fn fill(stdin: &mut impl Read, s: &mut [u8], part: Range<usize>) {
    if let Some(part) = s.get_mut(part) {
        let _ = input::read_tape(stdin, part);
    }
}

// Reads a case and runs it; none at the input's end.
fn next_case(rt: &impl Print, stdin: &mut impl Read) -> Option<()> {
    let mut head = [0u8; 20];
    if input::read_tape(stdin, &mut head).ok()? < 20 {
        return None;
    }
    let what = read_word(&head, 0);
    let v = read_word(&head, 4) as usize;
    let n = read_word(&head, 8) as usize;
    let h = read_word(&head, 12) as usize;
    let t = read_word(&head, 16) as usize;
    let mut values = [0u8; 64];
    let mut longest = [0u8; 65540];
    let end = n.checked_sub(t)?;
    fill(stdin, &mut values, 0..v);
    fill(stdin, &mut longest, 0..h);
    fill(stdin, &mut longest, end..n);
    if let Some(lent) = longest.get_mut(..n) {
        run(rt, what, &values, lent);
        text(rt, "\n");
    }
    Some(())
}

fn main(rt: HostRuntime) {
    let mut stdin = rt.stdin();
    for _ in 0..100000 {
        if next_case(&rt, &mut stdin).is_none() {
            break;
        }
    }
}
