// The lines of a watch onto standard output, each as soon as it is known.
ghost use Rattle.std.specs.Prelude.{◌≤◌};

use auction::Auction;
use base::Refusal;
use listing::watch;
use listing::watch::LINES;
use std::io;
use tape::Event;

#[derive(Drop)]
pub(crate) struct Screen<'a, R: Print> {
    rt: &'a R,
    lines: [u8; LINES],
}

impl<'a, R: Print> Screen<'a, R> {
    pub(crate) fn new(rt: &'a R) -> Screen<'a, R> {
        Screen {
            rt,
            lines: [0; LINES],
        }
    }

    // The first n bytes of the lines.
    fn print(&self, n: usize) -> io::Result<()>
        requires { n ≤ 9216 }
    {
        self.rt.write_all(&self.lines[..n])
    }

    // A tape or an order was refused.
    pub(crate) fn refused(&mut self, refusal: Refusal) -> io::Result<()> {
        let n = watch::refused(refusal.number(), &mut self.lines);
        self.print(n)
    }

    pub(crate) fn opened(&mut self, auction: &Auction) -> io::Result<()> {
        let n = watch::opened(auction.head, &mut self.lines);
        self.print(n)
    }

    // One event; the auction after it.
    pub(crate) fn event(&mut self, auction: Auction, event: Event) -> io::Result<Auction> {
        let watched = watch::event(auction, event, &mut self.lines);
        self.print(watched.length)?;
        Ok(watched.auction)
    }

    // The lines of the end; an auction still open is closed by hand.
    pub(crate) fn ended(&mut self, auction: &Auction) -> io::Result<()> {
        let n = watch::ended(*auction, &mut self.lines);
        self.print(n)
    }
}
