// A tape moved from one form to the other, old to new or new to old, into lent bytes. Its records are not looked into, but for what a new one has and an old one has not.

#![tactic(auto)]

ghost use Rattle.std.specs.Prelude.{◌≡◌, ◌||◌, map, ◌+◌, ◌*◌, ◌≤◌, length, take};
ghost use Rattle.tape.specs.rules.Records.{width_of};
ghost use Rattle.tape.specs.rules.Tape.{length_of};
ghost use Rattle.tape.specs.rules.Whole.{together, records_bytes};
ghost use Rattle.moving.specs.rules.Moving.{has_form, moved_trailer, is_bare, all_bare, moved_record, moved_bytes, move_opened, move_answer, move_wrote};
ghost use Rattle.words.specs.inside.Writing.{WroteBytes};
ghost use Rattle.moving.specs.inside.Code.{MovesOpened};

use base::Refusal;
use tape::{ORDER_BYTES, Trailer, event_bytes};
use words::bytes::read_word;

// How many bytes a trailer has.
const TRAILER_BYTES: usize = 16;

// ---- what the moved tape is

// Whether a tape has a form already.
fn has_form(t: Trailer, wide: bool) -> bool
    ensures { result ≡ has_form t wide }
{
    t.wide == wide
}

// The trailer of the moved tape: the order's offset and the count of the events stay.
fn moved_trailer(wide: bool, t: Trailer) -> Trailer
    ensures { result ≡ moved_trailer wide t }
{
    Trailer { wide, ..t }
}

// The last two words of the new record at the start of lent bytes are zero.
fn is_bare(r: &[u8]) -> bool
    ensures { result ≡ is_bare r.now }
{
    (read_word(r, 32) == 0) & (read_word(r, 36) == 0)
}

// ---- the tape that is moved

// A tape whose lengths add up.
#[derive(Clone, Copy)]
struct Whole<'a> {
    bytes: &'a [u8],
    trailer: Trailer,
    ghost adds_up: { length_of trailer ≡ length bytes.now },
}

impl<'a> Whole<'a> {
    // The bytes before its records: the recorder's own, and the order's.
    fn front(self) -> &'a [u8]
        ensures { result.now ≡ take (self.entry.trailer.order + 64) self.entry.bytes.now }
    {
        &self.bytes[..(self.trailer.order as usize) + ORDER_BYTES]
    }

    // Those of its records, one after the other.
    fn records(self) -> &'a [u8]
        ensures { result.now ≡ together (records_bytes self.entry.bytes.now self.entry.trailer) }
    {
        let first = (self.trailer.order as usize) + ORDER_BYTES;
        &self.bytes[first..self.bytes.len() - TRAILER_BYTES]
    }

    // Whether each event is bare. An old record is.
    fn all_bare(self) -> bool
        ensures { result ≡ all_bare (records_bytes self.entry.bytes.now self.entry.trailer) }
    {
        self.records()
            .chunks_exact(event_bytes(self.trailer.wide))
            .all(is_bare)
    }
}

// ---- writing the moved one

// Bytes at a place where there is room for them; the place after them.
fn put_bytes(out: &mut [u8], at: usize, s: &[u8]) -> usize
    requires { at + length s.now ≤ length out.old }
    ensures { WroteBytes out.old at s.now result out.new }
{
    let end = at + s.len();
    out[at..end].copy_from_slice(s);
    end
}

// A record in the other form: its first 32 bytes, and zeros after them where it is a new one.
fn put_record(wide: bool, r: &[u8], out: &mut [u8], at: usize) -> usize
    requires { (32 ≤ length r.now) × (at + width_of wide ≤ length out.old) }
    ensures { WroteBytes out.old at (moved_record wide r.now) result out.new }
{
    let w = put_bytes(out, at, &r[..32]);
    if wide { put_bytes(out, w, &[0; 8]) } else { w }
}

// Each record of the tape, one after the other.
fn put_records(wide: bool, whole: Whole, out: &mut [u8], start: usize) -> usize
    requires { start + whole.trailer.events * width_of wide ≤ length out.old }
    ensures { WroteBytes out.old start (together (map (moved_record wide) (records_bytes whole.entry.bytes.now whole.entry.trailer))) result out.new }
{
    let mut w = start;
    for r in whole
        .records()
        .chunks_exact(event_bytes(whole.trailer.wide))
    {
        w = put_record(wide, r, out, w);
    }
    w
}

// The moved tape at the start of lent bytes.
fn put_tape(wide: bool, whole: Whole, out: &mut [u8])
    requires { length_of (moved_trailer wide whole.trailer) ≤ length out.old }
    ensures { out.new ≡ moved_bytes wide whole.entry.bytes.now whole.entry.trailer out.old }
{
    let start = put_bytes(out, 0, whole.front());
    let end = put_records(wide, whole, out, start);
    // Its 16 bytes are there, so nothing is refused.
    let _ = tape::write_trailer(moved_trailer(wide, whole.trailer), &mut out[end..]);
}

// ---- moving

// Nothing is lost: to the new form nothing can be, and to the old one where every event is bare.
fn nothing_lost(wide: bool, whole: Whole) -> bool
    ensures { result ≡ (wide || all_bare (records_bytes whole.entry.bytes.now whole.entry.trailer)) }
{
    wide || whole.all_bare()
}

// A tape whose trailer was read: `TrailerOutOfForm` where it has the wanted form already, `LengthsDisagree`, `FirmLost`, `MovedTooLong`, `RoomTooShort`.
#[tactic(auto, unfolding(crate::specs::rules::Moving::move_opened))]
fn move_opened(wide: bool, t: Trailer, s: &[u8], out: &mut [u8]) -> Result<u64, Refusal>
    ensures { MovesOpened wide s.now t out.old result out.new }
{
    if has_form(t, wide) {
        return Err(Refusal::TrailerOutOfForm);
    }
    if tape::length_of(t) != s.len() as u64 {
        return Err(Refusal::LengthsDisagree);
    }
    let whole = Whole {
        bytes: s,
        trailer: t,
    };
    if !nothing_lost(wide, whole) {
        return Err(Refusal::FirmLost);
    }
    let n = tape::length_of(moved_trailer(wide, t));
    let room = out.len() as u64;
    if 65536 < n {
        return Err(Refusal::MovedTooLong);
    }
    if room < n {
        return Err(Refusal::RoomTooShort);
    }
    put_tape(wide, whole, out);
    Ok(n)
}

// The tape in the other form at the start of lent bytes, and its length: `wide` is the form that is wanted. `TapeLength`, `TrailerOutOfForm`, `LengthsDisagree`, `FirmLost`, `MovedTooLong`, then `RoomTooShort`; a refusal changes no byte.
#[tactic(auto, unfolding(crate::specs::rules::Moving::move_answer, crate::specs::rules::Moving::move_wrote))]
pub fn move_tape(wide: bool, s: &[u8], out: &mut [u8]) -> Result<u64, Refusal>
    ensures value { result ≡ move_answer wide s.now out.old }
    ensures out_after { out.new ≡ move_wrote wide s.now out.old }
{
    let t = tape::last_trailer(s)?;
    move_opened(wide, t, s, out)
}
