// What every crate stands on: the refusals, and a price's mirror.

#![tactic(auto)]

ghost use Rattle.std.specs.Prelude.{◌≡◌};
ghost use Rattle.base.specs.Price.{mirrored};

mod refusal;

pub use refusal::Refusal;

// A price as the other side has it.
#[tactic(auto, unfolding(crate::specs::Price::mirrored))]
pub fn mirror(p: u32) -> u32
    ensures { result ≡ mirrored p }
{
    1000000u32.saturating_sub(p)
}
