// Records as they come on standard input.
use crate::command::Form;
use crate::screen::Screen;
use crate::trouble::Trouble;
use auction::Auction;
use base::Refusal;
use std::io::Read;
use tape::{ORDER_BYTES, event_bytes};

fn is_open(auction: &Auction) -> bool {
    auction::is_open(auction.head.ending)
}

// The event records up to the input's end, where an auction still open is closed by hand; of one that has ended the lines were shown.
fn follow_events(
    screen: &mut Screen<impl Print>,
    stdin: &mut impl Read,
    form: Form,
    opened: Auction,
) -> Result<(), Trouble> {
    let wide = form.is_wide();
    let size = event_bytes(wide);
    let mut longest = [0u8; 40];
    let record = &mut longest[..size];
    let mut auction = opened;
    for _ in 0..u64::MAX {
        let n = input::read_tape(stdin, record)?;
        if n == 0 {
            break;
        }
        let open = is_open(&auction);
        if n < size {
            return Err(Trouble::Cut { open });
        }
        auction = screen.event(auction, tape::record_at(wide, record))?;
        if open && !is_open(&auction) {
            screen.ended(&auction)?;
        }
    }
    if is_open(&auction) {
        screen.ended(&auction)?;
    }
    Ok(())
}

// The auction that an order record opens.
fn open(record: &[u8]) -> Result<Auction, Refusal> {
    auction::accept(tape::read_order(record)?)
}

// An auction by its records as they come. Its lines are on its own frame: in `main` they would be on each subcommand's stack.
#[inline(never)]
pub(crate) fn follow(
    rt: &(impl Print + Eprint),
    stdin: &mut impl Read,
    form: Form,
) -> Result<(), Trouble> {
    let mut order = [0u8; ORDER_BYTES];
    let n = input::read_tape(stdin, &mut order)?;
    if n < ORDER_BYTES {
        let _ = eprintln!(rt; "desk: standard input ended inside the order record");
    }
    let mut screen = Screen::new(rt);
    match open(&order[..n]) {
        Ok(auction) => {
            screen.opened(&auction)?;
            follow_events(&mut screen, stdin, form, auction)
        }
        Err(refusal) => Ok(screen.refused(refusal)?),
    }
}
