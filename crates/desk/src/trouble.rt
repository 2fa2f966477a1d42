// Why the desk stops before its work is done.
use base::Refusal;
use input::{Stopped, SystemError};
use std::{fmt, io};

#[derive(Clone, Copy, Debug)]
pub(crate) enum Trouble {
    // There is no such subcommand.
    Unknown,
    Input(SystemError),
    Output(SystemError),
    // The input ended inside an event record; an auction still open is not closed then, for what was to come is not known.
    Cut { open: bool },
    // The tape can't be moved.
    Refused(Refusal),
}

// What standard error says.
impl fmt::Display for Trouble {
    fn fmt<W: fmt::Write>(&self, f: &mut fmt::Formatter<W>) -> fmt::Result {
        match self {
            Trouble::Unknown => f.write_str(
                "desk: no such subcommand; there are: desk trace < TAPE, desk watch < TAPE, desk firms < TAPE, desk live [new], desk move new|old < TAPE",
            ),
            Trouble::Input(error) => write!(f, "desk: standard input: {error}"),
            Trouble::Output(error) => write!(f, "desk: standard output: {error}"),
            Trouble::Cut { open: false } => {
                f.write_str("desk: standard input ended inside an event record")
            }
            Trouble::Cut { open: true } => f.write_str(
                "desk: standard input ended inside an event record; the auction was not closed",
            ),
            Trouble::Refused(refusal) => write!(f, "REFUSED {refusal}"),
        }
    }
}

impl From<Stopped> for Trouble {
    fn from(stopped: Stopped) -> Trouble {
        Trouble::Input(stopped.error)
    }
}

impl From<Refusal> for Trouble {
    fn from(refusal: Refusal) -> Trouble {
        Trouble::Refused(refusal)
    }
}

// The desk's other calls write.
impl From<io::Error> for Trouble {
    fn from(error: io::Error) -> Trouble {
        Trouble::Output(SystemError::from(error))
    }
}
