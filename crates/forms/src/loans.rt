// An event and a cancel by the forms that take a lent auction. Only these two make the reference: each lends a local.
ghost use Rattle.std.specs.Prelude.{◌≡◌};
ghost use Rattle.events.specs.rules.Step.{step_of};
ghost use Rattle.steps.specs.rules.Lent.{cancel_event};

use auction::Auction;
use events::Stepped;
use tape::Event;

pub(crate) fn applied(a: Auction, e: Event) -> Stepped
    ensures { result ≡ step_of a e }
{
    let mut n = a;
    let answer = steps::apply(&mut n, e);
    Stepped { answer, auction: n }
}

pub(crate) fn cancelled(a: Auction, sequence: u32, time: u32, named: u32) -> Stepped
    ensures { result ≡ step_of a (cancel_event sequence time named) }
{
    let mut n = a;
    let answer = steps::cancel(&mut n, sequence, time, named);
    Stepped { answer, auction: n }
}
