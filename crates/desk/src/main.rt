// What a desk looks at beside the listing, and moving a tape: a subcommand by its arguments, plain lines on standard output. A refused tape or order is
// its number. A read or a write that fails is said on standard error, and ends it.
//
//   desk trace < TAPE    a line for the order, one for each event record and one for closing by hand: the range then, and the responses that stand,
//                        each by its sequence and size, as 5:30, and a Customer's as 5:30:customer
//   desk watch < TAPE    the listing, with the contracts on offer after each event at the end of its line
//   desk firms < TAPE    a line for each FILL line of the listing: who traded, by its sequence or `contra`, and the participant of a response, as FIRM 5 77
//   desk live            the watch of an order record and event records, as they come on standard input: each line is written as soon as it is known,
//                        those of the end where an event ends the auction, else at the input's end
//   desk live new        the same of event records of the new form, 40 bytes each
//   desk move new < TAPE the tape in the new form; a refusal is its number on standard error, with nothing on standard output
//   desk move old < TAPE the tape in the old form

#![tactic(auto)]

use command::Command;
use std::env::Env;
use std::io::Read;
use trouble::Trouble;

mod command;
mod convert;
mod live;
mod looks;
mod screen;
mod trouble;

fn serve(
    rt: &(impl Print + Eprint),
    stdin: &mut impl Read,
    word: &[u8],
    form: &[u8],
) -> Result<(), Trouble> {
    match Command::parse(word, form)? {
        Command::Look(look) => looks::look_at(rt, stdin, look),
        Command::Live(form) => live::follow(rt, stdin, form),
        Command::Move(form) => convert::convert(rt, stdin, form),
    }
}

fn main(rt: HostRuntime) {
    let mut word = [0u8; 4096];
    let mut form = [0u8; 4096];
    let k = rt.arg(1, &mut word).unwrap_or(0);
    let n = rt.arg(2, &mut form).unwrap_or(0);
    if let Err(trouble) = serve(&rt, &mut rt.stdin(), &word[..k], &form[..n]) {
        let _ = eprintln!(rt; "{trouble}");
    }
}
