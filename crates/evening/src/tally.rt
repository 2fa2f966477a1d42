// How many tapes there were, and what came of them.
ghost use Rattle.std.specs.Prelude.{◌≡◌};
ghost use Rattle.evening.specs.Counting.{one_more, no_tapes, counted_tape, counted_unreadable, counted_ending, counted_listed};

use auction::Ending;
use listing::Listed;
use std::fmt;

#[derive(Clone, Copy, Debug)]
pub struct Tally {
    tapes: u64,
    refused: u64,
    time: u64,
    same: u64,
    opposite: u64,
    improve: u64,
    unreadable: u64,
}

fn one_more(n: u64) -> u64
    ensures { result ≡ one_more n }
{
    n.wrapping_add(1)
}

impl Tally {
    pub(crate) fn new() -> Tally
        ensures { result ≡ no_tapes }
    {
        Tally {
            tapes: 0,
            refused: 0,
            time: 0,
            same: 0,
            opposite: 0,
            improve: 0,
            unreadable: 0,
        }
    }

    pub(crate) fn count_tape(&mut self)
        ensures { self.new ≡ counted_tape self.old }
    {
        self.tapes = one_more(self.tapes);
    }

    pub(crate) fn count_unreadable(&mut self)
        ensures { self.new ≡ counted_unreadable self.old }
    {
        self.unreadable = one_more(self.unreadable);
    }

    fn count_ending(&mut self, ending: Ending)
        ensures { self.new ≡ counted_ending self.old ending }
    {
        match ending {
            Ending::Time => self.time = one_more(self.time),
            Ending::Same => self.same = one_more(self.same),
            Ending::Opposite => self.opposite = one_more(self.opposite),
            Ending::Improve => self.improve = one_more(self.improve),
            Ending::Open => {}
        }
    }

    pub(crate) fn count_listed(&mut self, listed: Listed)
        ensures { self.new ≡ counted_listed self.old listed }
    {
        match listed.outcome {
            Ok(ending) => self.count_ending(ending),
            Err(_) => self.refused = one_more(self.refused),
        }
    }
}

impl fmt::Display for Tally {
    fn fmt<W: fmt::Write>(&self, f: &mut fmt::Formatter<W>) -> fmt::Result {
        let Tally {
            tapes,
            refused,
            time,
            same,
            opposite,
            improve,
            unreadable,
        } = self;
        write!(
            f,
            "tapes {tapes}, refused {refused}, ended by time {time}, by same {same}, by opposite {opposite}, by improve {improve}, unreadable {unreadable}"
        )
    }
}
