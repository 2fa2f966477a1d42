// The lines of a listing.
ghost use Rattle.auction.specs.rules.Range.{range_of};
ghost use Rattle.run.specs.rules.Run.{said};
ghost use Rattle.listing.specs.rules.Listing.{refused_line, range_text, side_text, auction_line, answer_text, event_text, event_line, event_line_with, end_text, end_line, party_text, fill_line, total_line};
ghost use Rattle.share.specs.rules.Fills.{fill};
ghost use Rattle.listing.specs.inside.Writes.{Fits, Writes};

use crate::text::Writer;
use auction::{Ending, Head, Range, price_range};
use events::Answer;

#[tactic(auto, using(crate::proofs::WriterLaws::writing), unfolding(crate::proofs::WriterLaws::lines))]
impl Writer<'_> {
    pub(crate) fn refused(&mut self, number: u32)
        requires { Fits self.old (refused_line number) }
        ensures { Writes self.old self.new (refused_line number) }
    {
        self.field(b"REFUSED ", number);
        self.text(b"\n");
    }

    fn range(&mut self, r: Range)
        requires { Fits self.old (range_text r) }
        ensures { Writes self.old self.new (range_text r) }
    {
        self.field(b" range ", r.low);
        self.field(b" to ", r.high);
        self.text(b"\n");
    }

    fn side(&mut self, sell: bool)
        requires { Fits self.old (side_text sell) }
        ensures { Writes self.old self.new (side_text sell) }
    {
        if sell {
            return self.text(b"AUCTION sell");
        }
        self.text(b"AUCTION buy");
    }

    pub(crate) fn auction(&mut self, h: Head)
        requires { Fits self.old (auction_line h) }
        ensures { Writes self.old self.new (auction_line h) }
    {
        let t = h.terms;
        self.side(t.sell);
        self.field(b" size ", t.size);
        self.range(price_range(h));
    }

    fn answer(&mut self, answer: Answer)
        requires { Fits self.old (answer_text answer) }
        ensures { Writes self.old self.new (answer_text answer) }
    {
        match answer {
            Answer::Taken => self.text(b" taken"),
            Answer::Ended => self.text(b" ended"),
            Answer::Late => self.text(b" late"),
            Answer::Refused(refusal) => self.field(b" refused ", refusal.number()),
        }
    }

    // An EVENT line up to its end.
    fn said(&mut self, sequence: u32, answer: Answer)
        requires { Fits self.old (event_text (said sequence answer)) }
        ensures { Writes self.old self.new (event_text (said sequence answer)) }
    {
        self.field(b"EVENT ", sequence);
        self.answer(answer);
    }

    pub(crate) fn event(&mut self, sequence: u32, answer: Answer)
        requires { Fits self.old (event_line (said sequence answer)) }
        ensures { Writes self.old self.new (event_line (said sequence answer)) }
    {
        self.said(sequence, answer);
        self.text(b"\n");
    }

    // An EVENT line of a watch, with the contracts on offer at its end.
    pub(crate) fn watched(&mut self, sequence: u32, answer: Answer, offered: u32)
        requires { Fits self.old (event_line_with (said sequence answer) offered) }
        ensures { Writes self.old self.new (event_line_with (said sequence answer) offered) }
    {
        self.said(sequence, answer);
        self.field(b" on offer ", offered);
        self.text(b"\n");
    }

    fn ending(&mut self, ending: Ending)
        requires { Fits self.old (end_text ending) }
        ensures { Writes self.old self.new (end_text ending) }
    {
        match ending {
            Ending::Time => self.text(b"END time"),
            Ending::Same => self.text(b"END same"),
            Ending::Opposite => self.text(b"END opposite"),
            Ending::Improve => self.text(b"END improve"),
            Ending::Open => self.text(b"END open"),
        }
    }

    pub(crate) fn end(&mut self, h: Head)
        requires { Fits self.old (end_line h) }
        ensures { Writes self.old self.new (end_line h) }
    {
        let ending = h.ending;
        self.ending(ending);
        self.range(price_range(h));
    }

    fn party(&mut self, party: u32)
        requires { Fits self.old (party_text party) }
        ensures { Writes self.old self.new (party_text party) }
    {
        if party == 0 {
            return self.text(b"FILL contra");
        }
        self.field(b"FILL ", party);
    }

    pub(crate) fn fill(&mut self, party: u32, price: u32, quantity: u32)
        requires { Fits self.old (fill_line (fill party price quantity)) }
        ensures { Writes self.old self.new (fill_line (fill party price quantity)) }
    {
        self.party(party);
        self.field(b" ", price);
        self.field(b" ", quantity);
        self.text(b"\n");
    }

    pub(crate) fn total(&mut self, n: u64)
        requires { Fits self.old (total_line n) }
        ensures { Writes self.old self.new (total_line n) }
    {
        self.text(b"TOTAL ");
        self.number(n);
        self.text(b"\n");
    }
}
