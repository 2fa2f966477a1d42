// A tape looked at: how the auction goes, what is on offer, who traded.
use crate::command::Look;
use crate::screen::Screen;
use crate::trouble::Trouble;
use auction::Auction;
use base::Refusal;
use board::Response;
use input::MOST;
use std::io;
use std::io::Read;
use tape::{Event, Trailer};

// A tape that was opened.
#[derive(Clone, Copy)]
struct Tape<'a> {
    bytes: &'a [u8],
    trailer: Trailer,
}

impl<'a> Tape<'a> {
    fn event(self, k: u32) -> Event {
        tape::record_in(self.bytes, self.trailer, k as usize)
    }
}

// ---- opening

// A tape, and the auction that its order opens.
fn open(bytes: &[u8]) -> Result<(Tape, Auction), Refusal> {
    let trailer = tape::open_tape(bytes)?;
    let auction = auction::accept(tape::order_in(bytes, trailer)?)?;
    Ok((Tape { bytes, trailer }, auction))
}

// ---- where the auction stands

// A live response: its sequence, its size and whether it is a Customer's.
fn print_response(rt: &impl Print, response: Response) -> io::Result<()> {
    let customer = if response.customer { ":customer" } else { "" };
    print!(rt; " {}:{}{customer}", response.sequence, response.size)
}

// A line: what it is of, the range, the responses that stand, from the first place on.
fn print_auction(rt: &impl Print, word: &str, auction: &Auction) -> io::Result<()> {
    let range = auction::price_range(auction.head);
    print!(rt; "{word} range {} to {} stand", range.low, range.high)?;
    for place in 0..64 {
        if board::is_live(auction.board, place) {
            print_response(rt, board::response_at(auction.board, place))?;
        }
    }
    println!(rt)
}

fn trace(rt: &impl Print, tape: Tape, opened: Auction) -> io::Result<()> {
    print_auction(rt, "ORDER", &opened)?;
    let mut auction = opened;
    for k in 0..tape.trailer.events {
        auction = steps::step(auction, tape.event(k)).auction;
        print_auction(rt, "RECORD", &auction)?;
    }
    print_auction(rt, "CLOSE", &steps::close(auction).auction)
}

// ---- what is on offer

fn watch(screen: &mut Screen<impl Print>, tape: Tape, opened: Auction) -> io::Result<()> {
    screen.opened(&opened)?;
    let mut auction = opened;
    for k in 0..tape.trailer.events {
        auction = screen.event(auction, tape.event(k))?;
    }
    screen.ended(&auction)
}

// ---- who traded

// Of a response with its participant; a market order has none.
fn print_firm(rt: &impl Print, auction: &Auction, party: u32) -> io::Result<()> {
    if party == 0 {
        return println!(rt; "FIRM contra");
    }
    match auction::participant_of(*auction, party) {
        Some(participant) => println!(rt; "FIRM {party} {participant}"),
        None => println!(rt; "FIRM {party}"),
    }
}

// The auction after its events, closed by hand where it is open still.
fn closed(tape: Tape, opened: Auction) -> Auction {
    let mut auction = opened;
    for k in 0..tape.trailer.events {
        auction = steps::step(auction, tape.event(k)).auction;
    }
    steps::close(auction).auction
}

// A line for each fill, which is three words, the party first.
fn firms(rt: &impl Print, tape: Tape, opened: Auction) -> io::Result<()> {
    let auction = closed(tape, opened);
    let mut words = [0u32; 390];
    if let Ok(n) = fills::write_fills(auction, &mut words, 0) {
        for fill in words.chunks_exact(3).take(n as usize) {
            print_firm(rt, &auction, fill[0])?;
        }
    }
    Ok(())
}

// ---- the tape on standard input

// Its buffers are on its own frame: in `main` they would be on each subcommand's stack.
#[inline(never)]
pub(crate) fn look_at(rt: &impl Print, stdin: &mut impl Read, look: Look) -> Result<(), Trouble> {
    let mut bytes = [0u8; MOST];
    let n = input::read_tape(stdin, &mut bytes)?;
    let mut screen = Screen::new(rt);
    let (tape, auction) = match open(&bytes[..n]) {
        Ok(opened) => opened,
        Err(refusal) => return Ok(screen.refused(refusal)?),
    };
    match look {
        Look::Trace => trace(rt, tape, auction)?,
        Look::Watch => watch(&mut screen, tape, auction)?,
        Look::Firms => firms(rt, tape, auction)?,
    }
    Ok(())
}
