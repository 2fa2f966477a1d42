// The numbers of a deal and of a level.
ghost use Rattle.std.specs.Prelude.{◌≡◌, cond, ◌&&◌, ◌+◌, ◌*◌, ◌/◌, ◌≤◌, ◌<◌, min, max, leb, ltb, eqb};
ghost use Rattle.trade.specs.rules.Trade.{top, entry, guarantee_of};
ghost use Rattle.trade.specs.rules.Write.{reported_price};
ghost use Rattle.trade.specs.inside.Code.{in_turn_of, match_of, last_of, want_of, shared_of, contra_of, left_of};

use crate::Deal;
use words::bits;

// A price under the bound works at the bound.
pub(crate) fn working(price: u32, bound: u32) -> u64
    ensures { (result ≡ max price bound) × (result ≤ 4294967295) }
{
    u64::from(price.max(bound))
}

// The last price of the walk.
#[tactic(auto, unfolding(crate::specs::rules::Trade::top))]
pub(crate) fn top_of(d: Deal) -> u64
    ensures { (result ≡ top d) × (result ≤ 4294967295) }
{
    if d.mode == 1 {
        return working(d.stop, d.bound);
    }
    u64::from(d.initiating)
}

// The price from which on the Contra Order takes part.
#[tactic(auto, unfolding(crate::specs::rules::Trade::entry))]
pub(crate) fn entry_of(d: Deal) -> u64
    ensures { result ≡ entry d }
{
    if d.mode == 2 {
        return 0;
    }
    working(d.stop, d.bound)
}

fn percent_of(size: u64, n: u32) -> u64
    requires { size ≤ 4294967295 }
    ensures { (result ≡ cond (eqb n 1) (size * 5 / 10) (size * 4 / 10)) × (result ≤ 4294967295) }
{
    if n == 1 {
        return size * 5 / 10;
    }
    size * 4 / 10
}

// The guarantee of an order of this size, where n responses are live.
#[tactic(auto, unfolding(crate::specs::rules::Trade::guarantee_of))]
pub(crate) fn guarantee_of(size: u64, n: u32) -> u64
    requires { size ≤ 4294967295 }
    ensures { (result ≡ guarantee_of size n) × (result ≤ 4294967295) }
{
    percent_of(size, n).max(1)
}

// What the Contra Order matches at a price whose responses come to a.
#[tactic(auto, unfolding(crate::specs::inside::Code::match_of))]
pub(crate) fn matched(mode: u8, g: u64, held: u64, a: u64) -> u64
    ensures { (result ≡ match_of mode g held a) × (result ≤ a) }
{
    if mode == 2 {
        return a;
    }
    if g <= held {
        return 0;
    }
    a
}

// Whether all the rest goes to the Contra Order at the price p.
#[tactic(auto, unfolding(crate::specs::inside::Code::last_of))]
pub(crate) fn is_last(entry: u64, top: u64, p: u64, left: u64, need: u64) -> bool
    ensures { result ≡ last_of entry top p left need }
{
    (entry <= p) && ((p == top) || (left <= need))
}

// What the Contra Order takes before the others.
#[tactic(auto, unfolding(crate::specs::inside::Code::want_of))]
pub(crate) fn wanted(last: bool, entry: u64, p: u64, g: u64, held: u64, m: u64) -> u64
    ensures { (result ≡ want_of last entry p g held m) × (result ≤ max g m) }
{
    if last {
        return g.saturating_sub(held);
    }
    if p < entry {
        return 0;
    }
    m
}

// What Customers and the Contra Order's first part leave to the others.
#[tactic(auto, unfolding(crate::specs::inside::Code::shared_of))]
pub(crate) fn shared_of(left: u64, c: u64, want: u64) -> u64
    ensures { (result ≡ shared_of left c want) × (result ≤ left) }
{
    left.saturating_sub(c).saturating_sub(want)
}

// What the Contra Order gets at a level: c and t are the sizes of its Customers and of the others.
#[tactic(auto, unfolding(crate::specs::inside::Code::contra_of, crate::specs::inside::Code::shared_of))]
pub(crate) fn contra_of(left: u64, c: u64, t: u64, want: u64, last: bool) -> u64
    ensures { result ≡ contra_of left c t want last }
{
    let first = left.saturating_sub(c).min(want);
    if last {
        return first + shared_of(left, c, want).saturating_sub(t);
    }
    first
}

// What a level leaves of the size.
#[tactic(auto, unfolding(crate::specs::inside::Code::left_of))]
pub(crate) fn left_of(left: u64, c: u64, t: u64, want: u64, last: bool) -> u64
    requires { c + t + want < 18446744073709551616 }
    ensures { result ≡ left_of left c t want last }
{
    if last {
        return 0;
    }
    left.saturating_sub(c + t + want)
}

// Whether the others are served in turn: where there is enough for all of them, or one alone.
#[tactic(auto, unfolding(crate::specs::inside::Code::in_turn_of))]
pub(crate) fn in_turn(total: u64, shared: u64, others: u64) -> bool
    ensures { result ≡ in_turn_of total shared others }
{
    (total <= shared) || (bits::without_lowest(others) == 0)
}

// The walk goes on while something is left and the last price is not passed.
pub(crate) fn going(left: u64, from: u64, top: u64) -> bool
    ensures { result ≡ (ltb 0 left && leb from top) }
{
    (0 < left) && (from <= top)
}

// A price as it is reported: a sell's is mirrored back.
pub(crate) fn reported_price(sell: bool, p: u64) -> u32
    requires { p ≤ 4294967295 }
    ensures { result ≡ reported_price sell p }
{
    let p = p as u32;
    if sell { base::mirror(p) } else { p }
}
