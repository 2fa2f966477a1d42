// The firm behind a response that stands on the board.

#![tactic(auto, unfolding(crate::specs::rules::Firm::participant_of))]

ghost use Rattle.std.specs.Prelude.{◌≡◌};
ghost use Rattle.auction.specs.rules.Firm.{participant_of};

use crate::Auction;

// Which participant stands behind the live response with this sequence; after the ending, which stood.
pub fn participant_of(a: Auction, sequence: u32) -> Option<u32>
    ensures { result ≡ participant_of a sequence }
{
    let named = board::find(a.board, sequence, true)?;
    let r = named.response;
    Some(r.participant)
}
