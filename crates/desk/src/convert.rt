// Moving a tape to the other form.
ghost use Rattle.std.specs.Prelude.{IfOk};
ghost use Rattle.io.specs.Counts.{IsPrefixLen};

use crate::command::Form;
use crate::trouble::Trouble;
use input::MOST;
use std::io::Read;

// The tape in a form at the start of lent bytes, and its length.
fn moved(form: Form, tape: &[u8], out: &mut [u8]) -> Result<usize, Trouble>
    ensures { IfOk result (λ n. IsPrefixLen n out.new) }
{
    let length = moving::move_tape(form.is_wide(), tape, out)?;
    Ok(length as usize)
}

// The tape on standard input in a form, onto standard output. Its buffers are on its own frame: in `main` they would be on each subcommand's stack.
#[inline(never)]
pub(crate) fn convert(rt: &impl Print, stdin: &mut impl Read, form: Form) -> Result<(), Trouble> {
    let mut tape = [0u8; MOST];
    let mut out = [0u8; MOST];
    let n = input::read_tape(stdin, &mut tape)?;
    let n = moved(form, &tape[..n], &mut out)?;
    rt.write_all(&out[..n])?;
    Ok(())
}
