// A watch: the lines of a listing one by one, each at the start of lent bytes, so that a screen shows each at once; an EVENT line has the contracts on offer at its end.
// Each function answers the length of what it wrote. Where the lent bytes are fewer than LINES it is 0: nothing is written, and no event is met.
ghost use Rattle.std.specs.Prelude.{◌≡◌, ◌≤◌, length};
ghost use Rattle.run.specs.rules.Run.{closed};
ghost use Rattle.listing.specs.rules.Listing.{refused_line, auction_line, end_lines};
ghost use Rattle.listing.specs.rules.Watch.{shown_length, shown_bytes, watch_line, watched_of};

use crate::text::Writer;
use auction::{Auction, Head, on_offer};
use steps::{close, step};
use tape::Event;

// Every line fits, and those of the end together.
pub const LINES: usize = 9216;

// The auction after an event, and the length of the event's line.
#[derive(Clone, Copy)]
pub struct Watched {
    pub auction: Auction,
    pub length: usize,
}

// REFUSED and the number of a tape or an order.
pub fn refused(number: u32, out: &mut [u8]) -> usize
    ensures value { result ≡ shown_length (refused_line number) out.old }
    ensures out_after { (out.new ≡ shown_bytes (refused_line number) out.old) × (result ≤ length out.new) }
{
    if out.len() < LINES {
        return 0;
    }
    let mut w = Writer::new(out);
    w.refused(number);
    w.at
}

// The AUCTION line.
pub fn opened(h: Head, out: &mut [u8]) -> usize
    ensures value { result ≡ shown_length (auction_line h) out.old }
    ensures out_after { (out.new ≡ shown_bytes (auction_line h) out.old) × (result ≤ length out.new) }
{
    if out.len() < LINES {
        return 0;
    }
    let mut w = Writer::new(out);
    w.auction(h);
    w.at
}

// One event, and its line.
pub fn event(a: Auction, e: Event, out: &mut [u8]) -> Watched
    ensures value { result ≡ watched_of a e out.old }
    ensures out_after { (out.new ≡ shown_bytes (watch_line a e) out.old) × (result.length ≤ length out.new) }
{
    if out.len() < LINES {
        return Watched {
            auction: a,
            length: 0,
        };
    }
    let s = step(a, e);
    let answer = s.answer;
    let auction = s.auction;
    let mut w = Writer::new(out);
    w.watched(e.sequence, answer, on_offer(auction));
    Watched {
        auction,
        length: w.at,
    }
}

// The lines of the end; an auction still open is closed by hand.
pub fn ended(a: Auction, out: &mut [u8]) -> usize
    ensures value { result ≡ shown_length (end_lines (closed a)) out.old }
    ensures out_after { (out.new ≡ shown_bytes (end_lines (closed a)) out.old) × (result ≤ length out.new) }
{
    if out.len() < LINES {
        return 0;
    }
    let s = close(a);
    let n = s.auction;
    let mut w = Writer::new(out);
    w.results(n.head, &n.board);
    w.at
}
