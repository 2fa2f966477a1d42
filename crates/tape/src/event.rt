// The event record: 32 bytes on an old tape; 40 on a new one, which is `wide` and has the participant.
ghost use Rattle.std.specs.Prelude.{◌≡◌, ◌≤◌, length};
ghost use Rattle.tape.specs.rules.Records.{width_of, new_word, event_of, event_spare, of_no_kind, record_at, read_event, event_held, event_answer, event_wrote};

use crate::form::event_form;
use base::Refusal;
use words::bytes::{join, read_word, write_words};

// An event as it was recorded: what its fields 12, 16, 20 and 24 hold depends on its kind. The participant is the firm behind it; 0 where the record is an old one.
#[derive(Clone, Copy, Default)]
pub struct Event {
    pub sequence: u32,
    pub time: u32,
    pub kind: u8,
    pub marks: u8,
    pub side: u8,
    pub f12: u32,
    pub f16: u32,
    pub f20: u32,
    pub f24: u32,
    pub participant: u32,
}

// How many bytes the record has.
#[tactic(auto, unfolding(crate::specs::rules::Records::width_of))]
pub fn event_bytes(wide: bool) -> usize
    ensures { (result ≡ width_of wide) × (32 ≤ result) × (result ≤ 40) }
{
    if wide { 40 } else { 32 }
}

// A word that only a new record has; 0 in an old one.
fn new_word(wide: bool, s: &[u8], at: usize) -> u32
    ensures { result ≡ new_word wide s.now at }
{
    if wide { read_word(s, at) } else { 0 }
}

// The bytes that no field has are zero.
#[tactic(auto, unfolding(crate::specs::rules::Records::event_spare))]
fn event_spare(wide: bool, s: &[u8]) -> bool
    requires { 32 ≤ length s.now }
    ensures { result ≡ event_spare wide s.now }
{
    (s[11] == 0) & (read_word(s, 28) == 0) & (new_word(wide, s, 36) == 0)
}

// The fields, in their places.
#[tactic(auto, unfolding(crate::specs::rules::Records::event_of))]
fn event_of(wide: bool, s: &[u8]) -> Event
    requires { 32 ≤ length s.now }
    ensures { result ≡ event_of wide s.now }
{
    Event {
        sequence: read_word(s, 0),
        time: read_word(s, 4),
        kind: s[8],
        marks: s[9],
        side: s[10],
        f12: read_word(s, 12),
        f16: read_word(s, 16),
        f20: read_word(s, 20),
        f24: read_word(s, 24),
        participant: new_word(wide, s, 32),
    }
}

// An event of no kind, which no auction takes.
fn of_no_kind(sequence: u32) -> Event
    ensures { result ≡ of_no_kind sequence }
{
    Event {
        sequence,
        ..Event::default()
    }
}

// The event that stands in the record at the start of lent bytes, in form or not.
#[tactic(auto, unfolding(crate::specs::rules::Records::record_at))]
pub fn record_at(wide: bool, s: &[u8]) -> Event
    ensures { result ≡ record_at wide s.now }
{
    if s.len() < event_bytes(wide) {
        return of_no_kind(read_word(s, 0));
    }
    if event_spare(wide, s) {
        return event_of(wide, s);
    }
    of_no_kind(read_word(s, 0))
}

// The event at the start of lent bytes: `RoomTooShort`, then `EventOutOfForm`.
#[tactic(auto, unfolding(crate::specs::rules::Records::read_event))]
pub fn read_event(wide: bool, s: &[u8]) -> Result<Event, Refusal>
    ensures { result ≡ read_event wide s.now }
{
    if s.len() < event_bytes(wide) {
        return Err(Refusal::RoomTooShort);
    }
    let e = event_of(wide, s);
    if event_spare(wide, s) & event_form(e) {
        Ok(e)
    } else {
        Err(Refusal::EventOutOfForm)
    }
}

// Whether a record can hold an event: it is in form, and an old record has no participant.
#[tactic(auto, unfolding(crate::specs::rules::Records::event_held))]
fn event_held(wide: bool, e: Event) -> bool
    ensures { result ≡ event_held wide e }
{
    event_form(e) & (wide | (e.participant == 0))
}

// The event into the start of lent bytes: `EventOutOfForm`, then `RoomTooShort`; a refusal changes no byte.
#[tactic(auto, unfolding(crate::specs::rules::Records::event_answer, crate::specs::rules::Records::event_wrote))]
pub fn write_event(wide: bool, e: Event, out: &mut [u8]) -> Result<(), Refusal>
    ensures value { result ≡ event_answer wide e out.old }
    ensures out_after { out.new ≡ event_wrote wide e out.old }
{
    if !event_held(wide, e) {
        return Err(Refusal::EventOutOfForm);
    }
    let n = event_bytes(wide);
    if out.len() < n {
        return Err(Refusal::RoomTooShort);
    }
    let words = [
        e.sequence,
        e.time,
        join(e.kind, e.marks, e.side, 0),
        e.f12,
        e.f16,
        e.f20,
        e.f24,
        0,
        e.participant,
        0,
    ];
    write_words(out, 0, &words[..n / 4]);
    Ok(())
}
