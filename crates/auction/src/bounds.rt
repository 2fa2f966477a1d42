// The range that holds in an auction, and whether it is open.

#![tactic(auto, unfolding(crate::specs::rules::Range::bound_now, crate::specs::rules::Range::range_of))]

ghost use Rattle.std.specs.Prelude.{◌≡◌, ◌≤◌};
ghost use Rattle.auction.specs.rules.Range.{is_open, word, bound_by, bound_now, range_of};

use crate::orders::bound;
use crate::{Ending, Head, Quotes, Range, Terms};
use base::mirror;

pub fn is_open(g: Ending) -> bool
    ensures { result ≡ is_open g }
{
    matches!(g, Ending::Open)
}

// The lower bound that quotes make.
pub fn bound_by(t: Terms, q: Quotes) -> u64
    ensures { (result ≡ bound_by t q) × (result ≤ 4294967296) }
{
    bound(t.size, t.floor, q.bb, q.bidmark)
}

pub(crate) fn to_word(x: u64) -> u32
    ensures { result ≡ word x }
{
    u32::try_from(x).unwrap_or(u32::MAX)
}

// The lower bound as it stands.
pub fn bound_now(h: Head) -> u32
    ensures { result ≡ bound_now h }
{
    to_word(bound_by(h.terms, h.quotes))
}

// The range that holds, low to high.
pub fn price_range(h: Head) -> Range
    ensures { result ≡ range_of h }
{
    let t = h.terms;
    if t.sell {
        return Range {
            low: mirror(t.initiating),
            high: mirror(bound_now(h)),
        };
    }
    Range {
        low: bound_now(h),
        high: t.initiating,
    }
}
