// What is found of a place that is looked at.
ghost use Rattle.std.specs.Prelude.{◌≡◌, cond, ◌+◌, ◌*◌, ◌/◌, ◌%◌, ◌≤◌, ◌<◌, max, length};
ghost use Rattle.base.specs.Lists.{sum};
ghost use Rattle.board.specs.rules.Board.{live_in};
ghost use Rattle.board.specs.inside.Places.{word_of};
ghost use Rattle.trade.specs.inside.Code.{nothing_at, found_at, rank_after, added_to, found_with, later_with, or_all, has_places, due_of, limit_of, below, least_of, Short, fractions_in, sorted_of, Two, FoundNext};

use crate::{Found, Walked, numbers};
use board::{Board, Response};
use words::bits;
use words::bits::Places;

// Nothing, at a price.
pub(crate) fn nothing(p: u64) -> Found
    ensures { result ≡ nothing_at p }
{
    Found {
        price: p,
        customers: 0,
        others: 0,
        served: 0,
        total: 0,
        customer: 0,
        other: 0,
    }
}

// The sequence of the last, after one more.
#[tactic(auto, unfolding(crate::specs::inside::Code::rank_after))]
fn ranked(m: u32, s: u32) -> u32
    ensures { result ≡ rank_after m s }
{
    if m <= s { s } else { u32::MAX }
}

// What was found, with a response at place i that works at its price.
#[tactic(auto, unfolding(crate::specs::inside::Code::added_to, crate::specs::inside::Code::rank_after))]
pub(crate) fn added(f: Found, r: Response, i: usize) -> Found
    requires { f.served + f.total ≤ 274877906880 }
    ensures { (result ≡ added_to f r i) × (result.served + result.total ≤ f.served + f.total + 4294967295) }
{
    if r.customer {
        return Found {
            customers: bits::with_bit(f.customers, i),
            served: f.served + u64::from(r.size),
            customer: ranked(f.customer, r.sequence),
            ..f
        };
    }
    Found {
        others: bits::with_bit(f.others, i),
        total: f.total + u64::from(r.size),
        other: ranked(f.other, r.sequence),
        ..f
    }
}

// What was found at the price p, which is at most the price of f: nothing yet, where it is lower.
#[tactic(auto, unfolding(crate::specs::inside::Code::found_at))]
fn found_at(f: Found, p: u64) -> Found
    ensures { (result ≡ found_at f p) × (result.served + result.total ≤ f.served + f.total) }
{
    if p < f.price {
        return nothing(p);
    }
    f
}

// What was found at the lowest price, with a response at place i that works at p: one at a lower price stands alone.
#[tactic(auto, unfolding(crate::specs::inside::Code::found_with))]
pub(crate) fn found(f: Found, r: Response, p: u64, i: usize) -> Found
    requires { f.served + f.total ≤ 274877906880 }
    ensures { (result ≡ found_with f r p i) × (result.served + result.total ≤ f.served + f.total + 4294967295) }
{
    if f.price < p {
        return f;
    }
    added(found_at(f, p), r, i)
}

// What was found at the lowest price but one, with a response that does not work at the lowest, f: where it works at a lower one, that is f.
#[tactic(auto, unfolding(crate::specs::inside::Code::later_with))]
pub(crate) fn later(f: Found, n: Found, r: Response, p: u64, i: usize) -> Found
    requires { n.served + n.total ≤ 274877906880 }
    ensures { (result ≡ later_with f n r p i) × (result.served + result.total ≤ max (f.served + f.total) (n.served + n.total) + 4294967295) }
{
    if p < f.price {
        return f;
    }
    found(n, r, p, i)
}

// The whole part of amount * size / total.
pub(crate) fn part_of(amount: u64, total: u64, size: u32) -> u64
    requires { (amount ≤ 4294967295) × (amount < total) }
    ensures { (result ≡ amount * size / total) × (result ≤ size) × (size ≤ 4294967295) }
{
    amount * u64::from(size) / total
}

// What that leaves over, in parts of the total.
pub(crate) fn fraction_of(amount: u64, total: u64, size: u32) -> u64
    requires { (amount ≤ 4294967295) × (amount < total) }
    ensures { (result ≡ amount * size % total) × (result < total) }
{
    amount * u64::from(size) % total
}

// The places of a word, or all that are left where it has none.
pub(crate) fn or_all(word: u64, rest: u64) -> u64
    ensures { result ≡ or_all word rest }
{
    if word == 0 {
        return rest;
    }
    word
}

// The price below which a place is near: a quarter of the way from the lowest price to come to the last.
pub(crate) fn limit_of(from: u64, top: u64) -> u64
    requires { (from ≤ 4294967296) × (top ≤ 4294967295) }
    ensures { result ≡ limit_of from top }
{
    from + top.saturating_sub(from) / 4 + 1
}

// The lowest price at which a response of a word works, but at most the last price.
pub(crate) fn lowest(b: &Board, word: u64, bound: u32, top: u64) -> u64
    requires { length b.now.places ≡ 64 }
    ensures { result ≡ least_of bound top (live_in word b.now.places) }
{
    let mut lowest = top;
    for i in Places::of(word) {
        lowest = lowest.min(numbers::working(b.places[i].price, bound));
    }
    lowest
}

// The places of a word whose responses work below a limit.
fn below(b: &Board, word: u64, bound: u32, limit: u64) -> u64
    requires { length b.now.places ≡ 64 }
    ensures { result ≡ word_of (below bound limit) word b.now.places }
{
    let mut near = 0;
    for i in Places::of(word) {
        if numbers::working(b.places[i].price, bound) < limit {
            near = bits::with_bit(near, i);
        }
    }
    near
}

// The sum of the fractions of the responses of a word.
pub(crate) fn fractions(b: &Board, word: u64, amount: u64, total: u64) -> u64
    requires { (length b.now.places ≡ 64) × Short b.now.places word amount total }
    ensures { result ≡ sum (fractions_in amount total b.now.places word) }
{
    let mut sum = 0;
    for i in Places::of(word) {
        sum += fraction_of(amount, total, b.places[i].size);
    }
    sum
}

// What stands at the two lowest prices of the responses of a word.
fn look(b: &Board, unseen: u64, bound: u32, top: u64) -> (Found, Found)
    requires { (length b.now.places ≡ 64) × (top ≤ 4294967295) }
    ensures { Two bound top b.now.places unseen result.0 result.1 }
{
    let mut first = nothing(top);
    let mut second = first;
    for i in Places::of(unseen) {
        let r = b.places[i];
        // A test on the price as it was given keeps a place that is passed over short.
        if second.price < u64::from(r.price) {
            continue;
        }
        let p = numbers::working(r.price, bound);
        if p == first.price {
            first = added(first, r, i);
            continue;
        }
        second = later(first, second, r, p, i);
        first = found(first, r, p, i);
    }
    (first, second)
}

// Whether the near places are to be chosen anew: none of them is left, though others are. Not before the first look, nor where the next price is known to have a place.
#[tactic(auto, unfolding(crate::specs::inside::Code::due_of))]
fn is_due(s: Walked) -> bool
    ensures { result ≡ due_of s }
{
    (s.near & s.rest == 0) && (s.from != 0) && !has_places(s.next) && (s.rest != 0)
}

fn has_places(next: Option<Found>) -> bool
    ensures { result ≡ has_places next }
{
    match next {
        Some(f) => (f.customers != 0) | (f.others != 0),
        None => false,
    }
}

// The near places chosen anew, where that is due: those that work below a limit, or all where none does.
#[tactic(auto, unfolding(crate::specs::inside::Code::sorted_of))]
pub(crate) fn sorted(s: Walked, b: &Board, bound: u32, top: u64) -> Walked
    requires { (length b.now.places ≡ 64) × (s.from ≤ 4294967296) × (top ≤ 4294967295) }
    ensures { result ≡ sorted_of bound top b.now.places s }
{
    if !is_due(s) {
        return s;
    }
    let near = below(b, s.rest, bound, limit_of(s.from, top));
    Walked {
        near: or_all(near, s.rest),
        next: None,
        ..s
    }
}

// What stands at the next price; and at the one after it, where a look finds that too. The look goes over the near places, or over all where none of them is left.
pub(crate) fn looked(s: Walked, b: &Board, bound: u32, top: u64) -> (Found, Option<Found>)
    requires { (length b.now.places ≡ 64) × (top ≤ 4294967295) }
    ensures { FoundNext bound top b.now.places s result.0 result.1 }
{
    if let Some(f) = s.next {
        return (f, None);
    }
    let (first, second) = look(b, or_all(s.near & s.rest, s.rest), bound, top);
    (first, Some(second))
}
