// The runner's listing of a tape, into lent bytes.

#![tactic(auto)]

ghost use Rattle.std.specs.Prelude.{◌≡◌, cond, ◌+◌, ◌*◌, ◌%◌, ◌≤◌, ◌<◌, eqb, length, Ok};
ghost use Rattle.board.specs.rules.Board.{empty_board};
ghost use Rattle.tape.specs.rules.Tape.{order_in, records_of};
ghost use Rattle.run.specs.rules.Run.{run, heard, closed, refused, run_entry, run_order};
ghost use Rattle.listing.specs.rules.Listing.{event_lines, room_of, length_in, listed_of, bytes_of};
ghost use Rattle.listing.specs.inside.Code.{Lists};
ghost use Rattle.listing.specs.inside.Writes.{Fits, Writes};
ghost use Rattle.words.specs.rules.Bits.{count_trailing_zeros};

use auction::{Auction, Ending, Head};
use base::Refusal;
use board::{Board, Found};
use decision::Change;
use events::turns;
use tape::{Order, Trailer};
use text::Writer;
use words::bits;

mod lines;
mod results;
mod text;
pub mod watch;

// What came of a tape, and the length of its listing: why the auction ended; else the refusal of the tape or the order, or `RoomTooShort`, with which nothing was written.
#[derive(Clone, Copy)]
pub struct Listed {
    pub outcome: Result<Ending, Refusal>,
    pub length: usize,
}

// Every listing fits.
pub const ROOM: usize = 131072;

// How many bytes were written.
pub fn length_of(l: Listed) -> usize
    ensures { result ≡ length_in l }
{
    l.length
}

// ---- the events

// The places to look over for the response that an event names: the live ones where it names one.
fn sought(names: bool, live: u64) -> u64
    ensures { result ≡ cond names live 0 }
{
    if names {
        return live;
    }
    0
}

// How many places, by fours, come before the four that have the lowest place of a word.
fn gap_of(word: u64) -> usize
    requires { (0 < word) × (word % 16 ≡ 0) }
    ensures { (0 < result) × (result < 64) × (result % 4 ≡ 0) × (result ≤ count_trailing_zeros 64 word) }
{
    let i = bits::first_set(word) as usize;
    i / 4 * 4
}

// Which of four places has this sequence: the first of three that have it, else the fourth.
fn which(sequence: u32, first: u32, second: u32, third: u32) -> usize
    ensures { (result ≡ cond (eqb first sequence) 0 (cond (eqb second sequence) 1 (cond (eqb third sequence) 2 3))) × (result ≤ 3) }
{
    if first == sequence {
        return 0;
    }
    if second == sequence {
        return 1;
    }
    if third == sequence {
        return 2;
    }
    3
}

// A line for each of the tape's events. The board is lent, and begins empty: what a turn says is seated on it in place.
fn put_events(tape: &[u8], t: Trailer, a: Auction, b: &mut Board, w: &mut Writer) -> Head
    requires room { Fits w.old (event_lines (heard a (records_of tape.now t))) }
    requires board_value { (a.board ≡ empty_board) × (b.old ≡ empty_board) }
    ensures lines { Writes w.old w.new (event_lines (heard a (records_of tape.now t))) }
    ensures auction_value { (record { head = result; board = b.new } ≡ closed (run a (records_of tape.now t))) × (length b.new.places ≡ 64) }
{
    let n = t.events as usize;
    let mut h = a.head;
    for k in 0..n {
        let e = tape::record_in(tape, t, k);
        // A cancel or an amend names a response. It is looked for on the board itself, four places at a time, and a gap is skipped at once. `rest` is the word of live places from place i on.
        let mut named = None;
        let mut rest = sought(turns::names(e), b.live);
        let mut i = 0;
        let mut slow = 0;
        while rest != 0 {
            if rest % 16 == 0 {
                let gap = gap_of(rest);
                rest = rest >> gap;
                i += gap;
                continue;
            }
            let second = i + 1;
            let third = i + 2;
            let fourth = i + 3;
            if (b.places[i].sequence != e.f12)
                & (b.places[second].sequence != e.f12)
                & (b.places[third].sequence != e.f12)
                & (b.places[fourth].sequence != e.f12)
            {
                rest /= 16;
                i += 4;
                continue;
            }
            let j = i
                + which(
                    e.f12,
                    b.places[i].sequence,
                    b.places[second].sequence,
                    b.places[third].sequence,
                );
            let r = b.places[j];
            rest = 0;
            if bits::test(b.live, j) & board::is_named(r, e.f12, false) {
                named = Some(Found {
                    place: j,
                    response: r,
                });
                continue;
            }
            // A freed place still has this sequence: the live places are looked at one by one.
            slow = b.live;
        }
        while slow != 0 {
            let j = bits::first_set(slow) as usize;
            let r = b.places[j];
            if board::is_named(r, e.f12, false) {
                named = Some(Found {
                    place: j,
                    response: r,
                });
                slow = 0;
                continue;
            }
            slow = bits::without_lowest(slow);
        }
        let v = turns::sight_of(b.live, named);
        let u = turns::turn(h, v, e);
        let answer = u.answer;
        w.event(e.sequence, answer);
        let c = u.change;
        match c {
            Change::Seat(i, r, _) => {
                if i < 64 {
                    b.places[i] = r;
                    b.live = bits::with_bit(b.live, i);
                }
            }
            Change::Free(i, _) => {
                b.live = bits::without_bit(b.live, i);
            }
            Change::Nothing => {}
            Change::Quote(_) => {}
            Change::Sell(_) => {}
        }
        h = u.head;
    }
    let last = turns::close_turn(h);
    last.head
}

// ---- the tape

fn list_refused(out: &mut [u8], refusal: Refusal) -> Listed
    requires { room_of ≤ length out.old }
    ensures { Lists (refused refusal) out.old result out.new }
{
    let mut w = Writer::new(out);
    w.refused(refusal.number());
    Listed {
        outcome: Err(refusal),
        length: w.at,
    }
}

// An open auction, with the tape's events.
fn list_auction(tape: &[u8], t: Trailer, a: Auction, out: &mut [u8]) -> Listed
    requires events_bound { (t.events ≤ 2045) × (room_of ≤ length out.old) }
    requires board_value { a.board ≡ empty_board }
    ensures { Lists (run_entry (records_of tape.now t) (Ok a)) out.old result out.new }
{
    let opened = a.head;
    let mut w = Writer::new(out);
    w.auction(opened);
    let mut b = board::empty();
    let end = put_events(tape, t, a, &mut b, &mut w);
    w.results(end, &b);
    Listed {
        outcome: Ok(end.ending),
        length: w.at,
    }
}

fn list_order(tape: &[u8], t: Trailer, o: Order, out: &mut [u8]) -> Listed
    requires { (t.events ≤ 2045) × (room_of ≤ length out.old) }
    ensures { Lists (run_order (records_of tape.now t) (Ok o)) out.old result out.new }
{
    match auction::accept(o) {
        Ok(a) => list_auction(tape, t, a, out),
        Err(refusal) => list_refused(out, refusal),
    }
}

fn list_tape(tape: &[u8], t: Trailer, out: &mut [u8]) -> Listed
    requires { (t.events ≤ 2045) × (room_of ≤ length out.old) }
    ensures { Lists (run_order (records_of tape.now t) (order_in tape.now t)) out.old result out.new }
{
    match tape::order_in(tape, t) {
        Ok(o) => list_order(tape, t, o, out),
        Err(refusal) => list_refused(out, refusal),
    }
}

// The listing at the start of lent bytes: 24, before anything else, where they are fewer than ROOM, and nothing is written then.
pub fn listing(tape: &[u8], out: &mut [u8]) -> Listed
    ensures value { result ≡ listed_of tape.now out.old }
    ensures out_after { out.new ≡ bytes_of tape.now out.old }
{
    if out.len() < ROOM {
        return Listed {
            outcome: Err(Refusal::RoomTooShort),
            length: 0,
        };
    }
    match tape::open_tape(tape) {
        Ok(t) => list_tape(tape, t, out),
        Err(refusal) => list_refused(out, refusal),
    }
}
