// The trailer, 16 bytes, and a tape's opening by it.
ghost use Rattle.std.specs.Prelude.{◌≡◌};
ghost use Rattle.tape.specs.rules.Records.{first_word, read_trailer, trailer_answer, trailer_wrote};
ghost use Rattle.tape.specs.rules.Tape.{length_of, last_trailer, open_tape};

use crate::event::event_bytes;
use base::Refusal;
use words::bytes::{read_word, write_words};

// Where the order is, how many events there are, and whether their records are the new, wide ones.
#[derive(Clone, Copy)]
pub struct Trailer {
    pub order: u32,
    pub events: u32,
    pub wide: bool,
}

// "CUBT" as a word, which an old tape has, and "CUB2", a new one's.
const CUBT: u32 = 1413633347;

const CUB2: u32 = 843208003;

// The trailer at the start of lent bytes: `RoomTooShort`, then `TrailerOutOfForm`.
#[tactic(auto, unfolding(crate::specs::rules::Records::read_trailer, crate::specs::rules::Records::trailer_of))]
pub fn read_trailer(s: &[u8]) -> Result<Trailer, Refusal>
    ensures { result ≡ read_trailer s.now }
{
    if s.len() < 16 {
        return Err(Refusal::RoomTooShort);
    }
    let name = read_word(s, 0);
    if ((name == CUBT) | (name == CUB2)) & (read_word(s, 12) == 0) {
        Ok(Trailer {
            order: read_word(s, 4),
            events: read_word(s, 8),
            wide: name == CUB2,
        })
    } else {
        Err(Refusal::TrailerOutOfForm)
    }
}

// The word that tells the form.
fn first_word(wide: bool) -> u32
    ensures { result ≡ first_word wide }
{
    if wide { CUB2 } else { CUBT }
}

// Any trailer into the start of lent bytes: `RoomTooShort` alone refuses it, and changes no byte.
#[tactic(auto, unfolding(crate::specs::rules::Records::trailer_answer, crate::specs::rules::Records::trailer_wrote))]
pub fn write_trailer(t: Trailer, out: &mut [u8]) -> Result<(), Refusal>
    ensures value { result ≡ trailer_answer t out.old }
    ensures out_after { out.new ≡ trailer_wrote t out.old }
{
    if out.len() < 16 {
        return Err(Refusal::RoomTooShort);
    }
    let words = [first_word(t.wide), t.order, t.events, 0];
    write_words(out, 0, &words);
    Ok(())
}

// The length that a trailer asks of its tape.
pub fn length_of(t: Trailer) -> u64
    ensures { result ≡ length_of t }
{
    u64::from(t.order) + 64 + u64::from(t.events) * (event_bytes(t.wide) as u64) + 16
}

// A tape's trailer, its last 16 bytes: `TapeLength`, `TrailerOutOfForm`.
#[tactic(auto, unfolding(crate::specs::rules::Tape::last_trailer))]
pub fn last_trailer(s: &[u8]) -> Result<Trailer, Refusal>
    ensures { result ≡ last_trailer s.now }
{
    let n = s.len();
    if (n < 16) | (65536 < n) {
        return Err(Refusal::TapeLength);
    }
    let at = n - 16;
    read_trailer(&s[at..])
}

// Where a tape's order is, how many events it has and of which form, by its last 16 bytes: `TapeLength`, `TrailerOutOfForm`, `LengthsDisagree`.
#[tactic(auto, unfolding(crate::specs::rules::Tape::open_tape))]
pub fn open_tape(s: &[u8]) -> Result<Trailer, Refusal>
    ensures { result ≡ open_tape s.now }
{
    let t = last_trailer(s)?;
    if length_of(t) == s.len() as u64 {
        Ok(t)
    } else {
        Err(Refusal::LengthsDisagree)
    }
}
