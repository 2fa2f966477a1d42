// Who trades when an auction has ended, and the fills written of it.

#![tactic(auto)]

ghost use Rattle.std.specs.Prelude.{◌≡◌, true, ◌+◌, ◌*◌, ◌^◌, ◌≤◌, ◌<◌, length};
ghost use Rattle.share.specs.rules.Fills.{fill_of};
ghost use Rattle.share.specs.inside.Fills.{WroteFills};
ghost use Rattle.trade.specs.rules.Write.{reported_price, fills_of, fill_answer, fill_words};
ghost use Rattle.board.specs.rules.Board.{live_of};
ghost use Rattle.trade.specs.inside.Code.{market_by, priced_of, passed_of, least_of};

use base::Refusal;
use board::Board;
use words::bits;

mod leftovers;
mod numbers;
mod scan;
mod write;

// The terms at the ending, for the buy that the engine works with: a sell is its mirror.
#[derive(Clone, Copy)]
pub struct Deal {
    // only says that result prices are mirrored back
    pub sell: bool,
    pub mode: u8,
    pub size: u32,
    pub initiating: u32,
    pub bound: u32,
    // the stop or auto-match limit as it was given; 0 in mode 2
    pub stop: u32,
    // the market order that ended the auction: its sequence, and its size (0 where none did)
    pub market: u32,
    pub selling: u32,
}

// What stands at a price: the words of its Customers and of the others, their sizes, and the sequence of the last of each: 4,294,967,295 where their places do not stand in rising order of sequence.
#[derive(Clone, Copy)]
struct Found {
    price: u64,
    customers: u64,
    others: u64,
    served: u64,
    total: u64,
    customer: u32,
    other: u32,
}

// A price of the walk: who stands there, as it was found; the price as it is reported; whether the others are served in turn; the size left on arriving and after it, what the Contra Order gets, and what is left to the others.
#[derive(Clone, Copy)]
struct Price {
    price: u64,
    customers: u64,
    others: u64,
    total: u64,
    left: u64,
    contra: u64,
    shared: u64,
    after: u64,
    customer: u32,
    other: u32,
    reported: u32,
    turns: bool,
}

// What one is given, and what is left to give.
#[derive(Clone, Copy)]
struct Given {
    quantity: u64,
    left: u64,
}

// Places among which the cut of the leftovers is looked for: the sum of their fractions, how many of them get a leftover, and the mean of the fractions, rounded up.
#[derive(Clone, Copy)]
struct Among {
    word: u64,
    sum: u64,
    leftovers: u64,
    mean: u64,
}

// The cut of the leftovers: one for each fraction above it, and for so many of those at it.
#[derive(Clone, Copy)]
struct Cut {
    at: u64,
    spare: u64,
}

// Of these places, those whose fraction is at least the mean, and the sum of these.
#[derive(Clone, Copy)]
struct Upper {
    word: u64,
    sum: u64,
}

// Responses to be served, Customers or the others (last) of a price, in turn or pro rata: k is what is left of the amount, or of the leftovers at the cut.
// The places of `run` stand in rising order of sequence, and come before those of `late` as far as their sequence is below the edge. Those of `unseen` are still to be looked at;
// while there are any, `first` is the lowest sequence that was seen, and `latest` the last of the run.
#[derive(Clone, Copy)]
struct Hand {
    last: bool,
    turns: bool,
    run: u64,
    late: u64,
    unseen: u64,
    edge: u64,
    first: u64,
    latest: u64,
    k: u64,
    at: usize,
}

// Where the walk stands: the lowest price to come, the places not yet walked, those that are near (some are walked), the size left, what the Contra Order holds, the next word, and what stands at
// the next price, where that is known.
#[derive(Clone, Copy)]
struct Walked {
    from: u64,
    rest: u64,
    near: u64,
    left: u64,
    held: u64,
    at: usize,
    next: Option<Found>,
}

// What is found at a price, with the plan of its mode.
#[tactic(auto, unfolding(crate::specs::inside::Code::priced_of))]
fn price_of(d: Deal, g: u64, s: Walked, f: Found) -> Price
    requires { (g ≤ 4294967295) × (f.price ≤ 4294967295) × (f.served + f.total ≤ 274877906880) }
    ensures { result ≡ priced_of d g s f }
{
    let top = numbers::top_of(d);
    let entry = numbers::entry_of(d);
    let a = f.served + f.total;
    let m = numbers::matched(d.mode, g, s.held, a);
    let last = numbers::is_last(entry, top, f.price, s.left, a + m);
    let want = numbers::wanted(last, entry, f.price, g, s.held, m);
    let shared = numbers::shared_of(s.left, f.served, want);
    Price {
        price: f.price,
        customers: f.customers,
        others: f.others,
        total: f.total,
        left: s.left,
        contra: numbers::contra_of(s.left, f.served, f.total, want, last),
        shared,
        after: numbers::left_of(s.left, f.served, f.total, want, last),
        customer: f.customer,
        other: f.other,
        reported: numbers::reported_price(d.sell, f.price),
        turns: numbers::in_turn(f.total, shared, f.others),
    }
}

// The walk stands after a price whose fills end before a word; found is what was found of the next price.
#[tactic(auto, unfolding(crate::specs::inside::Code::passed_of))]
fn passed(s: Walked, l: Price, found: Option<Found>, at: usize) -> Walked
    requires { (l.customers + l.others ≤ s.rest) × (s.held + l.contra < 18446744073709551616) × (l.price < 18446744073709551615) }
    ensures { result ≡ passed_of s l found at }
{
    Walked {
        from: l.price + 1,
        rest: s.rest - l.customers - l.others,
        left: l.after,
        held: s.held + l.contra,
        at,
        next: found,
        ..s
    }
}

// The price of the market order that ended the auction: lowest is the lowest working price, if there is a response, but at most the last price of the walk.
#[tactic(auto, unfolding(crate::specs::inside::Code::market_by))]
fn market_price(d: Deal, live: u64, lowest: u64) -> u64
    requires { lowest ≤ 4294967295 }
    ensures { (result ≡ market_by d live lowest) × (result ≤ 4294967295) }
{
    if d.mode == 2 {
        if live == 0 {
            return (u64::from(d.initiating) + u64::from(d.bound) + 1) / 2;
        }
        return lowest;
    }
    lowest.min(numbers::working(d.stop, d.bound))
}

// The fill of the market order that ended the auction, at the first of the lent words; where it takes nothing there is none.
fn write_market(d: Deal, b: &Board, top: u64, takes: u64, out: &mut [u32]) -> usize
    requires room { 3 ≤ length out.old }
    requires fits { (length b.now.places ≡ 64) × (top ≤ 4294967295) × (takes ≤ 4294967295) }
    ensures { WroteFills out.old 0 (fill_of d.market (reported_price d.sell (market_by d b.now.live (least_of d.bound top (live_of b.now)))) takes) result out.new }
{
    if takes == 0 {
        return 0;
    }
    let lowest = scan::lowest(b, b.live, d.bound, top);
    let price = numbers::reported_price(d.sell, market_price(d, b.live, lowest));
    write::put_fill(out, 0, d.market, price, takes)
}

// All the fills, from the first of the lent words on. Answers the place after them. The board is lent, and no place of it is copied.
fn write_all(d: Deal, b: &Board, out: &mut [u32]) -> usize
    requires room { 390 ≤ length out.old }
    requires fits { (length b.now.places ≡ 64) × (b.now.live < 2 ^ 64) }
    ensures { WroteFills out.old 0 (fills_of d b.now) result out.new }
{
    let top = numbers::top_of(d);
    let size = u64::from(d.size);
    let takes = size.min(u64::from(d.selling));
    let left = size - takes;
    let g = numbers::guarantee_of(size, bits::ones(b.live));
    let at = write_market(d, b, top, takes, out);
    let mut s = Walked {
        from: 0,
        rest: b.live,
        near: 0,
        left,
        held: 0,
        at,
        next: None,
    };
    // From the lowest working price up, until nothing is left or the last price is passed.
    while numbers::going(s.left, s.from, top) {
        s = scan::sorted(s, b, d.bound, top);
        let (f, found) = scan::looked(s, b, d.bound, top);
        let l = price_of(d, g, s, f);
        let at = write::write_price(l, leftovers::cut(l, b), b, out, s.at);
        s = passed(s, l, found, at);
    }
    s.at
}

// The word of the live places. Its contract says what is known of every board, and so of one that is lent.
fn live_of(b: Board) -> u64
    ensures { (result ≡ b.live) × (length b.places ≡ 64) × (b.live < 2 ^ 64) }
{
    b.live
}

// Writes the fills of an ended auction into the part of the lent words from `start` on, and counts them.
// AuctionOpen: it has not ended; FewWords: fewer than 390 words from the start place, or a start past the end. A refusal changes nothing.
pub fn write_fills(
    ended: bool,
    d: Deal,
    b: Board,
    out: &mut [u32],
    start: usize,
) -> Result<u32, Refusal>
    ensures value { result ≡ fill_answer ended d b out.old start }
    ensures out_after { out.new ≡ fill_words ended d b out.old start }
{
    write_lent(ended, d, &b, out, start)
}

// The same of a board that is lent, so that none is copied.
pub fn write_lent(
    ended: bool,
    d: Deal,
    b: &Board,
    out: &mut [u32],
    start: usize,
) -> Result<u32, Refusal>
    ensures value { result ≡ fill_answer ended d b.now out.old start }
    ensures out_after { out.new ≡ fill_words ended d b.now out.old start }
{
    if !ended {
        return Err(Refusal::AuctionOpen);
    }
    if out.len().saturating_sub(start) < 390 {
        return Err(Refusal::FewWords);
    }
    let _live = live_of(*b);
    let words = write_all(d, b, &mut out[start..]);
    Ok((words / 3) as u32)
}
