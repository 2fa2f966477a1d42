// Who gets the leftovers of a pro rata: the cut through the fractions of R * s / T. One for each fraction above the mean of the places that are left to look among, and for the first
// that are at it, as many as get a leftover of those.
ghost use Rattle.std.specs.Prelude.{◌≡◌, false, ◌+◌, ◌-◌, ◌/◌, ◌≤◌, ◌<◌, length};
ghost use Rattle.words.specs.rules.Bits.{ones_in};
ghost use Rattle.base.specs.Lists.{sum};
ghost use Rattle.board.specs.rules.Board.{live_in};
ghost use Rattle.share.specs.rules.Share.{leftover_count};
ghost use Rattle.share.specs.rules.Fills.{sizes};
ghost use Rattle.share.specs.inside.Cut.{Cuts};
ghost use Rattle.trade.specs.inside.Code.{no_cut, counted_of, among_of, narrowed_of, fractions_in, Short, UpperOf};

use crate::{Among, Cut, Price, Upper, scan};
use board::Board;
use words::bits;
use words::bits::Places;

// No place to look among, and this cut.
#[tactic(auto, unfolding(crate::specs::inside::Code::no_cut))]
fn no_cut(mean: u64) -> Among
    ensures { result ≡ no_cut mean }
{
    Among {
        word: 0,
        sum: 0,
        leftovers: 0,
        mean,
    }
}

// The places of the word, whose fractions come to the sum; so many of them get a leftover.
#[tactic(auto, unfolding(crate::specs::inside::Code::among_of, crate::specs::inside::Code::mean_of))]
fn among(word: u64, sum: u64, leftovers: u64) -> Among
    requires { (0 < ones_in 64 word) × (sum ≤ 70368744161280) }
    ensures { result ≡ among_of word sum leftovers }
{
    let n = u64::from(bits::ones(word));
    Among {
        word,
        sum,
        leftovers,
        mean: (sum + n - 1) / n,
    }
}

// The others of a price, whose fractions come to the sum: that is the total once for each leftover. Without any, no fraction is above the cut.
#[tactic(auto, unfolding(crate::specs::inside::Code::counted_of))]
fn counted(others: u64, sum: u64, total: u64) -> Among
    requires { (0 < total) × (sum ≤ 70368744161280) × (0 < sum / total → 0 < ones_in 64 others) }
    ensures { result ≡ counted_of others sum total }
{
    let k = sum / total;
    if k == 0 {
        return no_cut(total);
    }
    among(others, sum, k)
}

// Those of the places whose fraction is at least the mean.
fn upper(a: Among, b: &Board, amount: u64, total: u64) -> Upper
    requires board_size { length b.now.places ≡ 64 }
    requires amount_bound { (amount ≤ 4294967295) × (amount < total) × (sum (fractions_in amount total b.now.places a.word) < 18446744073709551616) }
    ensures { UpperOf amount total b.now.places a result }
{
    let mut u = Upper { word: 0, sum: 0 };
    for i in Places::of(a.word) {
        let fraction = scan::fraction_of(amount, total, b.places[i].size);
        if a.mean <= fraction {
            u.word = bits::with_bit(u.word, i);
            u.sum += fraction;
        }
    }
    u
}

// The half that has the cut: the upper ones, where they are as many as get a leftover, else the lower ones, for the rest.
#[tactic(auto, unfolding(crate::specs::inside::Code::narrowed_of, crate::specs::inside::Code::among_of))]
fn narrowed(a: Among, u: Upper) -> Among
    requires sum_bound { (a.sum ≤ 70368744161280) × (u.sum ≤ a.sum) × (u.word ≤ a.word) }
    requires word_nonzero { (0 < ones_in 64 u.word) × (ones_in 64 u.word < a.leftovers → 0 < ones_in 64 (a.word - u.word)) }
    ensures { result ≡ narrowed_of a u }
{
    let n = u64::from(bits::ones(u.word));
    if a.leftovers <= n {
        return among(u.word, u.sum, a.leftovers);
    }
    among(a.word - u.word, a.sum - u.sum, a.leftovers - n)
}

// The cut through the fractions of the others of a price who are served pro rata: it is in the upper half of the places, or in the lower one, until all have the same fraction.
pub(crate) fn cut(l: Price, b: &Board) -> Cut
    requires { (length b.now.places ≡ 64) × (l.turns ≡ false → Short b.now.places l.others l.shared l.total) }
    ensures { l.turns ≡ false → Cuts (leftover_count l.shared (sizes (live_in l.others b.now.places))) (fractions_in l.shared l.total b.now.places l.others) result.at result.spare }
{
    if l.turns {
        return Cut { at: 0, spare: 0 };
    }
    let sum = scan::fractions(b, l.others, l.shared, l.total);
    let mut a = counted(l.others, sum, l.total);
    loop {
        let u = upper(a, b, l.shared, l.total);
        if u.word == a.word {
            return Cut {
                at: a.mean,
                spare: a.leftovers,
            };
        }
        a = narrowed(a, u);
    }
}
