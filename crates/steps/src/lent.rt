// The auction lent and updated in place: one event, and a cancel by its numbers, each over the step by value. Only these take the reference.
ghost use Rattle.std.specs.Prelude.{◌≡◌};
ghost use Rattle.events.specs.rules.Step.{step_of};
ghost use Rattle.steps.specs.rules.Lent.{cancel_event};

use crate::by_value::step;
use auction::Auction;
use events::{Answer, Stepped};
use tape::{Event, Kind};

// One event: the lent auction becomes the one after it.
pub fn apply(a: &mut Auction, e: Event) -> Answer
    ensures { (result ≡ (step_of a.old e).answer) × (a.new ≡ (step_of a.old e).auction) }
{
    let s = step(*a, e);
    *a = s.auction;
    s.answer
}

// The step of a cancel that is given by its numbers.
#[tactic(auto, unfolding(crate::specs::rules::Lent::cancel_event))]
fn cancel_step(a: Auction, sequence: u32, time: u32, named: u32) -> Stepped
    ensures { result ≡ step_of a (cancel_event sequence time named) }
{
    let e = Event {
        sequence,
        time,
        kind: Kind::Cancel as u8,
        marks: 0,
        side: 0,
        f12: named,
        f16: 0,
        f20: 0,
        f24: 0,
        participant: 0,
    };
    step(a, e)
}

// A cancel of the GTX response whose sequence is `named`: the lent auction becomes the one after it.
pub fn cancel(a: &mut Auction, sequence: u32, time: u32, named: u32) -> Answer
    ensures { (result ≡ (step_of a.old (cancel_event sequence time named)).answer) × (a.new ≡ (step_of a.old (cancel_event sequence time named)).auction) }
{
    let s = cancel_step(*a, sequence, time, named);
    *a = s.auction;
    s.answer
}
