// The kinds of events, and the byte of a record that names each.
ghost use Rattle.tape.specs.rules.Kind.{Names};

// What an event is: a GTX response, its cancel, a limit order, a market order, quotes, or a GTX response's amend.
#[derive(Clone, Copy, Debug, PartialEq, Eq)]
pub enum Kind {
    Gtx = 1,
    Cancel = 2,
    Limit = 3,
    Market = 4,
    Quotes = 5,
    Amend = 6,
}

// A byte that names no kind.
#[derive(Clone, Copy, Debug, PartialEq, Eq)]
pub struct UnknownKind(pub u8);

impl TryFrom<u8> for Kind {
    type Error = UnknownKind;

    ghost try_from_gives = { Names };

    fn try_from(byte: u8) -> Result<Kind, UnknownKind> {
        match byte {
            1 => Ok(Kind::Gtx),
            2 => Ok(Kind::Cancel),
            3 => Ok(Kind::Limit),
            4 => Ok(Kind::Market),
            5 => Ok(Kind::Quotes),
            6 => Ok(Kind::Amend),
            _ => Err(UnknownKind(byte)),
        }
    }
}
