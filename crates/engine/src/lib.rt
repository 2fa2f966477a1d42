// The engine as one function over a tape's bytes and the bytes lent for its listing. `engine_c` exports it for a program in C.

#![tactic(auto)]

ghost use Rattle.std.specs.Prelude.{◌≡◌};
ghost use Rattle.listing.specs.rules.Listing.{length_in, listed_of, bytes_of};

// The length of the listing, which stands at the start of the lent bytes; 0 where they are fewer than listing::ROOM, and nothing is written then.
pub fn cube_listing(tape: &[u8], out: &mut [u8]) -> usize
    ensures value { result ≡ length_in (listed_of tape.now out.old) }
    ensures out_after { out.new ≡ bytes_of tape.now out.old }
{
    listing::length_of(listing::listing(tape, out))
}
