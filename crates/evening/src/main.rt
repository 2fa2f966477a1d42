// Names of tape files on standard input, one to a line (with the argument -0: each ended by a zero byte): each name and its tape's listing on
// standard output. At the end a summary on standard error, or, where the names could not be read or a listing not written, why.

#![tactic(auto)]

use input::{MOST, SystemError};
use listing::ROOM;
use names::Names;
use std::io::Read;
use std::rt::{Env, Files};
use std::{fmt, io};
use tally::Tally;

mod names;
mod tally;

// Why the rest of the tapes is not served.
#[derive(Clone, Copy, Debug)]
enum Trouble {
    Names(SystemError),
    Listings(SystemError),
}

impl fmt::Display for Trouble {
    fn fmt<W: fmt::Write>(&self, f: &mut fmt::Formatter<W>) -> fmt::Result {
        match self {
            Trouble::Names(error) => write!(f, "evening: standard input: {error}"),
            Trouble::Listings(error) => write!(f, "evening: standard output: {error}"),
        }
    }
}

// A write that failed.
impl From<io::Error> for Trouble {
    fn from(error: io::Error) -> Trouble {
        Trouble::Listings(SystemError::from(error))
    }
}

// What ends a name: a line's end, or with the argument -0 a zero byte.
fn separator(rt: &impl Env) -> u8 {
    let mut word = [0u8; 4096];
    let n = rt.arg(1, &mut word).unwrap_or(0);
    match &word[..n] {
        b"-0" => 0,
        _ => b'\n',
    }
}

// A word and the name, on a line.
fn print_name(rt: &impl Print, word: &str, name: &[u8]) -> io::Result<()> {
    rt.print(word)?;
    rt.write_all(name)?;
    rt.print("\n")
}

// The listing of a tape, in lent bytes, onto standard output.
fn show(rt: &impl Print, tally: &mut Tally, tape: &[u8], out: &mut [u8]) -> io::Result<()> {
    let listed = listing::listing(tape, out);
    let n = listing::length_of(listed);
    rt.write_all(&out[..n])?;
    tally.count_listed(listed);
    Ok(())
}

// One tape by its name: its listing, or that it can't be read, by the system's number for why.
fn serve(
    rt: &(impl Files + Print),
    tally: &mut Tally,
    name: &[u8],
    tape: &mut [u8],
    out: &mut [u8],
) -> io::Result<()> {
    print_name(rt, "TAPE ", name)?;
    match input::read_file(rt, name, tape) {
        Ok(n) => show(rt, tally, &tape[..n], out)?,
        Err(error) => {
            print!(rt; "UNREADABLE {}", error.number)?;
            print_name(rt, " ", name)?;
            tally.count_unreadable();
        }
    }
    tally.count_tape();
    Ok(())
}

// Each name of standard input in turn, until something fails.
fn serve_all(
    rt: &(impl Files + Print),
    stdin: impl Read + Drop,
    separator: u8,
) -> Result<Tally, Trouble> {
    let mut room = [0u8; 4096];
    let mut tape = [0u8; MOST];
    let mut out = [0u8; ROOM];
    let mut tally = Tally::new();
    let mut names = Names::new(stdin, separator);
    for _ in 0..u64::MAX {
        let Some(name) = names.next(&mut room).map_err(Trouble::Names)? else {
            break;
        };
        serve(rt, &mut tally, name, &mut tape, &mut out)?;
    }
    Ok(tally)
}

fn main(rt: HostRuntime) {
    let _ = match serve_all(&rt, rt.stdin(), separator(&rt)) {
        Ok(tally) => eprintln!(rt; "{tally}"),
        Err(trouble) => eprintln!(rt; "{trouble}"),
    };
}
