// The contracts on offer: the sum of the live responses' sizes, kept in the auction and moved by each event that places, cancels or amends a response.
ghost use Rattle.std.specs.Prelude.{◌≡◌};
ghost use Rattle.auction.specs.rules.Offer.{on_offer, moved_offer};

use crate::Auction;
use crate::bounds::to_word;

// The contracts on offer. The board is not looked at.
pub fn on_offer(a: Auction) -> u32
    ensures { result ≡ on_offer a }
{
    let h = a.head;
    h.offered
}

// A sum of sizes, of which one is gone and another has come: never below 0, at most the largest u32.
pub fn moved_offer(n: u32, gone: u32, come: u32) -> u32
    ensures { result ≡ moved_offer n gone come }
{
    to_word(u64::from(n.saturating_sub(gone)) + u64::from(come))
}
