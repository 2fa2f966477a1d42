// Reads one tape on standard input and writes its listing on standard output. A read or a write that fails is said on standard error.

#![tactic(auto)]

ghost use Rattle.std.specs.Prelude.{◌≡◌};
ghost use Rattle.io.specs.Counts.{IsPrefixLen};
ghost use Rattle.listing.specs.rules.Listing.{length_in, listed_of, bytes_of};

use input::{MOST, SystemError};
use listing::ROOM;

// What stands between reading and writing: the tape's listing at the start of the lent bytes, and its length.
fn answer(tape: &[u8], out: &mut [u8]) -> usize
    ensures value { result ≡ length_in (listed_of tape.now out.old) }
    ensures out_after { out.new ≡ bytes_of tape.now out.old }
    ensures prefix_len { IsPrefixLen result out.new }
{
    listing::length_of(listing::listing(tape, out))
}

fn main(rt: HostRuntime) {
    let mut tape = [0u8; MOST];
    let mut out = [0u8; ROOM];
    let tape = match input::read_tape(&mut rt.stdin(), &mut tape) {
        Ok(n) => &tape[..n],
        Err(stopped) => return input::fail(&rt, "runner: standard input", stopped.error.into()),
    };
    let n = answer(tape, &mut out);
    if let Err(error) = rt.write_all(&out[..n]) {
        input::fail(
            &rt,
            "runner: standard output",
            SystemError::from(error).into(),
        );
    }
}
