// A tape's bytes from an open file or by its name, and why the system would not give them. What a file holds no contract can say.

#![tactic(auto)]

ghost use Rattle.std.specs.Prelude.{◌≡◌, ◌≤◌, IfErr, IfOk, MatchResult};
ghost use Rattle.io.specs.Counts.{IsPrefixLen};

use std::fmt::InlineText;
use std::io::Read;
use std::rt::Files;
use std::{fmt, fs, io};

// One byte more than a tape may have, so that a longer input is refused.
pub const MOST: usize = 65537;

// Why a call failed: the system's number, 1 to 4,095, and 0 for any other. Which one no contract can say. It is printed as the system's words.
#[derive(Clone, Copy, Debug, PartialEq, Eq)]
pub struct SystemError {
    pub number: u16,
    pub ghost of_the_system: { number ≤ 4095 },
}

// The system's numbers for a name that no file can have: one with a zero byte, one that is too long, and, since std's names are text, one that is not UTF-8.
const INVALID: SystemError = SystemError { number: 22 };

const TOO_LONG: SystemError = SystemError { number: 36 };

const NOT_TEXT: SystemError = SystemError { number: 84 };

impl From<io::Error> for SystemError {
    fn from(error: io::Error) -> SystemError {
        let code = error.raw_os_error().unwrap_or(0);
        match u16::try_from(code) {
            Ok(number) if number <= 4095 => SystemError { number },
            _ => SystemError { number: 0 },
        }
    }
}

impl From<SystemError> for u64 {
    ghost from_gives = { λ error number. number ≡ error.number };

    fn from(error: SystemError) -> u64 {
        u64::from(error.number)
    }
}

impl fmt::Display for SystemError {
    fn fmt<W: fmt::Write>(&self, f: &mut fmt::Formatter<W>) -> fmt::Result {
        write!(f, "{}", Words(i32::from(self.number)))
    }
}

// The system's words for a number, without what std adds to them, as in `Broken pipe (os error 32)`.
#[derive(Clone, Copy, Debug)]
struct Words(i32);

impl fmt::Display for Words {
    fn fmt<W: fmt::Write>(&self, f: &mut fmt::Formatter<W>) -> fmt::Result {
        let text = InlineText::<256>::of(io::Error::from_raw_os_error(self.0));
        match text.as_str().split_once(" (os error ") {
            Some((words, _)) => f.write_str(words),
            None => f.write_str(text.as_str()),
        }
    }
}

// A read that failed: how many bytes came before it, and why.
#[derive(Clone, Copy, Debug, PartialEq, Eq)]
pub struct Stopped {
    pub length: usize,
    pub error: SystemError,
}

impl From<Stopped> for SystemError {
    ghost from_gives = { λ stopped error. error ≡ stopped.error };

    fn from(stopped: Stopped) -> SystemError {
        stopped.error
    }
}

// The file's bytes into lent bytes, as far as they go; how many came, on a failure too.
pub fn read_tape<R: Read>(from: &mut R, tape: &mut [u8]) -> Result<usize, Stopped>
    ensures { MatchResult result (λ n. IsPrefixLen n tape.new) (λ stopped. IsPrefixLen stopped.length tape.new) }
{
    let mut length = 0;
    while length < tape.len() {
        match from.read(&mut tape[length..]) {
            Ok(0) => break,
            Ok(more) => length += more,
            Err(error) => {
                let error = SystemError::from(error);
                return Err(Stopped { length, error });
            }
        }
    }
    Ok(length)
}

// A name of so many bytes, or more, is too long.
const PATH_MAX: usize = 4096;

// Opens the file of a name for reading, or says why it can't be opened.
pub fn open<R: Files>(rt: &R, name: &[u8]) -> Result<R::File, SystemError>
    ensures { IfErr result (λ error. error.number ≤ 4095) }
{
    if name.len() >= PATH_MAX {
        return Err(TOO_LONG);
    }
    if name.contains(&0) {
        return Err(INVALID);
    }
    let Ok(text) = str::from_utf8(name) else {
        return Err(NOT_TEXT);
    };
    Ok(fs::open(rt, text)?)
}

// The bytes of the file of a name into lent bytes, as far as they go; how many came.
pub fn read_file<R: Files>(rt: &R, name: &[u8], tape: &mut [u8]) -> Result<usize, SystemError>
    ensures { IfOk result (λ n. IsPrefixLen n tape.new) }
{
    let mut file = open(rt, name)?;
    Ok(read_tape(&mut file, tape)?)
}

// A line on standard error: what failed, and the system's words for the number of why. Where that line can't be written, nothing says so.
pub fn fail<R: Eprint>(rt: &R, what: &str, error: u64) {
    let words = Words(i32::try_from(error).unwrap_or(0));
    let _ = eprintln!(rt; "{what}: {words}");
}
