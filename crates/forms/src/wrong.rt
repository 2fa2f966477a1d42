// What the forms did wrong.
use std::fmt;

#[derive(Clone, Copy, Debug)]
pub(crate) enum Wrong {
    // The board's own functions do not tell what an event did to it.
    Board { sequence: u32 },
    FillsRefused,
    FillCount,
}

impl fmt::Display for Wrong {
    fn fmt<W: fmt::Write>(&self, f: &mut fmt::Formatter<W>) -> fmt::Result {
        match self {
            Wrong::Board { sequence } => write!(f, "WRONG board after event {sequence}"),
            Wrong::FillsRefused => f.write_str("WRONG fills refused"),
            Wrong::FillCount => f.write_str("WRONG count of fills"),
        }
    }
}
