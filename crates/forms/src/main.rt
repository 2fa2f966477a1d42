// Names of tape files on standard input, one to a line: each name and its tape's listing on standard output, as `evening` prints it, but
// played by the forms that document 01 names. A line `WRONG ..` stops the program.

#![tactic(auto)]

use input::MOST;
use lines::print_name;
use play::play_tape;
use std::rt::Files;
use wrong::Wrong;

mod lines;
mod loans;
mod play;
mod results;
mod seen;
mod wrong;

// One tape by its name. A file that can't be read is nothing wrong with the forms.
fn serve(rt: &(impl Files + Print), name: &[u8], tape: &mut [u8]) -> Result<(), Wrong> {
    print_name(rt, "TAPE ", name);
    match input::read_file(rt, name, tape) {
        Ok(n) => play_tape(rt, &tape[..n]),
        Err(_) => {
            print_name(rt, "UNREADABLE ", name);
            Ok(())
        }
    }
}

// Each line in turn.
fn serve_all(rt: &(impl Files + Print), names: &[u8], tape: &mut [u8]) -> Result<(), Wrong> {
    for line in names.split_inclusive(|byte| *byte == b'\n') {
        serve(rt, line.strip_suffix(b"\n").unwrap_or(line), tape)?;
    }
    Ok(())
}

fn main(rt: HostRuntime) {
    let mut names = [0u8; 65536];
    let mut tape = [0u8; MOST];
    // where the names end, or can be read no further
    let n = match input::read_tape(&mut rt.stdin(), &mut names) {
        Ok(n) => n,
        Err(stopped) => stopped.length,
    };
    if let Err(wrong) = serve_all(&rt, &names[..n], &mut tape) {
        let _ = println!(rt; "{wrong}");
    }
}
