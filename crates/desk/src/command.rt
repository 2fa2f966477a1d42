// The subcommands.
use crate::trouble::Trouble;

// What of a tape is looked at.
#[derive(Clone, Copy, Debug, PartialEq, Eq)]
pub(crate) enum Look {
    Trace,
    Watch,
    Firms,
}

// The form of a tape, or of event records.
#[derive(Clone, Copy, Debug, PartialEq, Eq)]
pub(crate) enum Form {
    Old,
    New,
}

impl Form {
    // As `tape` and `moving` take it.
    pub(crate) fn is_wide(self) -> bool {
        self == Form::New
    }
}

#[derive(Clone, Copy, Debug, PartialEq, Eq)]
pub(crate) enum Command {
    Look(Look),
    Live(Form),
    Move(Form),
}

impl Command {
    // By the first two arguments; one that is not there is empty.
    pub(crate) fn parse(word: &[u8], form: &[u8]) -> Result<Command, Trouble> {
        match (word, form) {
            (b"trace", _) => Ok(Command::Look(Look::Trace)),
            (b"watch", _) => Ok(Command::Look(Look::Watch)),
            (b"firms", _) => Ok(Command::Look(Look::Firms)),
            (b"live", b"") => Ok(Command::Live(Form::Old)),
            (b"live", b"new") => Ok(Command::Live(Form::New)),
            (b"move", b"old") => Ok(Command::Move(Form::Old)),
            (b"move", b"new") => Ok(Command::Move(Form::New)),
            _ => Err(Trouble::Unknown),
        }
    }
}
