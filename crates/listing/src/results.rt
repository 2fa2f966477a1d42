// The end of a listing: the ending, the fills and their sum.
ghost use Rattle.std.specs.Prelude.{◌≡◌, true, ◌+◌, ◌*◌, ◌/◌, ◌≤◌, length, take};
ghost use Rattle.share.specs.rules.Fills.{words};
ghost use Rattle.trade.specs.rules.Trade.{traded};
ghost use Rattle.fills.specs.rules.Fills.{has_ended, auction_fills};
ghost use Rattle.listing.specs.rules.Listing.{fill_lines, end_lines};
ghost use Rattle.listing.specs.inside.Code.{fills_in};
ghost use Rattle.listing.specs.inside.Writes.{Fits, Writes};

use crate::text::Writer;
use auction::Head;
use board::Board;
use fills::write_lent;

impl Writer<'_> {
    // A line for each of the fills, three words each. Answers the sum of their quantities, in the same loop: two cost about 1 percent of an ending.
    fn fills(&mut self, words: &[u32]) -> u64
        requires few { length words.now ≤ 390 }
        requires room { Fits self.old (fill_lines (fills_in words.now)) }
        ensures lines { Writes self.old self.new (fill_lines (fills_in words.now)) }
        ensures sum { result ≡ traded (fills_in words.now) }
    {
        let mut sum = 0;
        for fill in words.chunks_exact(3) {
            sum += u64::from(fill[2]);
            self.fill(fill[0], fill[1], fill[2]);
        }
        sum
    }

    // The end of the listing of an auction that has ended.
    pub(crate) fn results(&mut self, h: Head, b: &Board)
        requires ended { (has_ended h ≡ true) × (length b.now.places ≡ 64) }
        requires room { Fits self.old (end_lines (record { head = h; board = b.now })) }
        ensures { Writes self.old self.new (end_lines (record { head = h; board = b.now })) }
    {
        let mut words = [0u32; 390];
        let n = write_lent(h, b, &mut words, 0).unwrap() as usize;
        let fills = &words[..3 * n];
        self.end(h);
        let sum = self.fills(fills);
        self.total(sum);
    }
}
