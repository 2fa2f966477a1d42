// Writes fills into lent words.
ghost use Rattle.std.specs.Prelude.{◌≡◌, true, false, cond, ◌+◌, ◌*◌, ◌≤◌, ◌<◌, length};
ghost use Rattle.share.specs.rules.Fills.{fill_of};
ghost use Rattle.share.specs.inside.Fills.{WroteFills};
ghost use Rattle.share.specs.inside.Cut.{one_by, spare_by};
ghost use Rattle.trade.specs.inside.Code.{Gives, hunting_of, hand_of, runs_on, met_of, next_fills, next_of, served_fills, served_of, Ready, fills_at};

use crate::{Cut, Given, Hand, Price, scan};
use board::{Board, Response};
use words::bits;

// One fill of three words, and none where the quantity is zero. Answers the place after it.
pub(crate) fn put_fill(out: &mut [u32], at: usize, party: u32, price: u32, quantity: u64) -> usize
    requires quantity_bound { quantity ≤ 4294967295 }
    requires quantity_in_bounds { at + 3 * length (fill_of party price quantity) ≤ length out.old }
    ensures { WroteFills out.old at (fill_of party price quantity) result out.new }
{
    if 0 < quantity {
        out[at] = party;
        out[at + 1] = price;
        out[at + 2] = quantity as u32;
        at + 3
    } else {
        at
    }
}

// What one with this fraction is given of the leftovers: one above the cut, and at it one of those that are spare.
#[tactic(auto, unfolding(share::specs::inside::Cut::one_by))]
fn one_of(cut: u64, spare: u64, fraction: u64) -> Given
    ensures { (result.quantity ≡ one_by cut spare fraction) × (result.left ≡ spare_by cut spare fraction) × (result.quantity ≤ 1) }
{
    if cut < fraction {
        return Given {
            quantity: 1,
            left: spare,
        };
    }
    if fraction < cut {
        return Given {
            quantity: 0,
            left: spare,
        };
    }
    let one = spare.min(1);
    Given {
        quantity: one,
        left: spare - one,
    }
}

// What one of this size gets of k, first come first, or the whole part of its share and one leftover by the cut, k being spare there.
fn given(turns: bool, amount: u64, total: u64, cut: u64, k: u64, size: u32) -> Given
    requires { (amount ≤ 4294967295) × (k ≤ 4294967295) × (turns ≡ false → amount < total) }
    ensures { Gives turns amount total cut k size result }
{
    if turns {
        let q = k.min(u64::from(size));
        return Given {
            quantity: q,
            left: k - q,
        };
    }
    let part = scan::part_of(amount, total, size);
    let one = one_of(cut, k, scan::fraction_of(amount, total, size));
    Given {
        quantity: part + one.quantity,
        left: one.left,
    }
}

// The places of a word, to be looked over for the lowest sequence.
#[tactic(auto, unfolding(crate::specs::inside::Code::hunting_of))]
fn hunting(last: bool, turns: bool, word: u64, k: u64, at: usize) -> Hand
    ensures { result ≡ hunting_of last turns word k at }
{
    Hand {
        last,
        turns,
        run: 0,
        late: 0,
        unseen: word,
        edge: 4294967296,
        first: 4294967296,
        latest: 0,
        k,
        at,
    }
}

// The places of a word: sequence is that of the last, where they stand in rising order.
#[tactic(auto, unfolding(crate::specs::inside::Code::hand_of, crate::specs::inside::Code::hunting_of))]
fn hand_of(last: bool, turns: bool, word: u64, sequence: u32, k: u64, at: usize) -> Hand
    ensures { (result ≡ hand_of last turns word sequence k at) × (result.at ≡ at) }
{
    let h = hunting(last, turns, word, k, at);
    if sequence == u32::MAX {
        return h;
    }
    Hand {
        run: word,
        unseen: 0,
        ..h
    }
}

// The run goes on as it says, past the place that was looked at.
fn with_run(h: Hand, run: u64, late: u64, edge: u64, first: u64, latest: u64) -> Hand
    ensures { result ≡ runs_on h run late edge first latest }
{
    Hand {
        run,
        late,
        unseen: bits::without_lowest(h.unseen),
        edge,
        first,
        latest,
        ..h
    }
}

// A place is looked at, whose sequence is t: the run begins anew at the lowest sequence, goes on where it rises, and else the place comes late.
#[tactic(auto, unfolding(crate::specs::inside::Code::met_of))]
fn met(h: Hand, t: u64, i: usize) -> Hand
    requires { (t < 4294967296) × (h.run + h.late < 18446744073709551616) }
    ensures { result ≡ met_of h t i }
{
    if t < h.first {
        return with_run(h, bits::with_bit(0, i), h.run + h.late, h.first, t, t);
    }
    if h.latest <= t {
        return with_run(h, bits::with_bit(h.run, i), h.late, h.edge, h.first, t);
    }
    with_run(
        h,
        h.run,
        bits::with_bit(h.late, i),
        h.edge.min(t + 1),
        h.first,
        h.latest,
    )
}

// The Contra Order's fill, and the others after it.
fn others_of(l: Price, spare: u64, out: &mut [u32], at: usize) -> Hand
    requires { (l.contra ≤ 4294967295) × (at + 3 * length (fill_of 0 l.reported l.contra) ≤ length out.old) }
    ensures wrote_fills { WroteFills out.old at (fill_of 0 l.reported l.contra) result.at out.new }
    ensures value { result ≡ hand_of true l.turns l.others l.other (cond l.turns l.shared spare) result.at }
{
    let n = put_fill(out, at, 0, l.reported, l.contra);
    if l.turns {
        return hand_of(true, true, l.others, l.other, l.shared, n);
    }
    hand_of(true, false, l.others, l.other, spare, n)
}

// Where the run is served: those that come late, or the Contra Order and the others after the Customers.
#[tactic(auto, using(crate::proofs::RunLaws::wrote_none), unfolding(crate::specs::inside::Code::next_fills, crate::specs::inside::Code::next_of, crate::specs::inside::Code::hunting_of))]
fn next(h: Hand, l: Price, spare: u64, out: &mut [u32]) -> Hand
    requires { (l.contra ≤ 4294967295) × (h.at + 3 * length (next_fills h l) ≤ length out.old) }
    ensures wrote_fills { WroteFills out.old h.at (next_fills h l) result.at out.new }
    ensures value { result ≡ next_of h l spare result.at }
{
    if h.late != 0 {
        return hunting(h.last, h.turns, h.late, h.k, h.at);
    }
    others_of(l, spare, out, h.at)
}

// The first of the run is served, where its sequence is below the edge; else all are looked over again.
#[tactic(auto, using(crate::proofs::RunLaws::wrote_none), unfolding(crate::specs::inside::Code::served_fills, crate::specs::inside::Code::served_of, crate::specs::inside::Code::hunting_of))]
fn filled(h: Hand, l: Price, cut: u64, r: Response, out: &mut [u32]) -> Hand
    requires shared_bound { (l.shared ≤ 4294967295) × (h.k ≤ 4294967295) × (h.turns ≡ false → l.shared < l.total) × (h.run + h.late < 18446744073709551616) }
    requires r_in_bounds { h.at + 3 * length (served_fills h l cut r) ≤ length out.old }
    ensures wrote_fills { WroteFills out.old h.at (served_fills h l cut r) result.at out.new }
    ensures value { result ≡ served_of h l cut r result.at }
{
    if h.edge <= u64::from(r.sequence) {
        return hunting(h.last, h.turns, h.run + h.late, h.k, h.at);
    }
    let g = given(h.turns, l.shared, l.total, cut, h.k, r.size);
    let n = put_fill(out, h.at, r.sequence, l.reported, g.quantity);
    Hand {
        run: bits::without_lowest(h.run),
        unseen: 0,
        first: 4294967296,
        latest: 0,
        k: g.left,
        at: n,
        ..h
    }
}

// The fills of a price. Answers the place after them. Those whose order is not known are looked over for the lowest sequences; the run that a look found is served, unless one that comes late is before its
// next; then come those that come late, or the others after the Customers.
pub(crate) fn write_price(l: Price, cut: Cut, b: &Board, out: &mut [u32], at: usize) -> usize
    requires price { Ready b.now.places l cut.at cut.spare }
    requires room { at + 3 * length (fills_at b.now.places l) ≤ length out.old }
    ensures { WroteFills out.old at (fills_at b.now.places l) result out.new }
{
    let mut h = hand_of(false, true, l.customers, l.customer, l.left, at);
    loop {
        while h.unseen != 0 {
            let i = bits::first_set(h.unseen) as usize;
            h = met(h, u64::from(b.places[i].sequence), i);
        }
        while h.run != 0 {
            let i = bits::first_set(h.run) as usize;
            h = filled(h, l, cut.at, b.places[i], out);
        }
        if h.unseen != 0 {
            continue;
        }
        if h.last & (h.late == 0) {
            return h.at;
        }
        h = next(h, l, cut.spare, out);
    }
}
