// The names on standard input.
ghost use Rattle.std.specs.Prelude.{◌≤◌};

use input::SystemError;
use std::io;
use std::io::Read;

const BUFFER: usize = 65536;

// The bytes that were read and not yet taken stand in the buffer from `at` up to `got`. It is no `BufReader`: that one takes an allocator.
#[derive(Drop)]
pub(crate) struct Names<R: Read + Drop> {
    stdin: R,
    separator: u8,
    buffer: [u8; BUFFER],
    at: usize,
    got: usize,
    ghost within: { got ≤ 65536 },
}

impl<R: Read + Drop> Names<R> {
    pub(crate) fn new(stdin: R, separator: u8) -> Names<R> {
        Names {
            stdin,
            separator,
            buffer: [0; BUFFER],
            at: 0,
            got: 0,
        }
    }

    // The next byte; none at the input's end.
    fn next_byte(&mut self) -> io::Result<Option<u8>> {
        if self.at >= self.got {
            self.got = self.stdin.read(&mut self.buffer)?;
            self.at = 0;
            if self.got == 0 {
                return Ok(None);
            }
        }
        let byte = self.buffer[self.at];
        self.at += 1;
        Ok(Some(byte))
    }

    // The next name at the start of lent bytes, without what ends it; none at the input's end. What has no room is dropped: so long a name names no file.
    pub(crate) fn next<'n>(&mut self, room: &'n mut [u8]) -> Result<Option<&'n [u8]>, SystemError> {
        let mut k = 0;
        for _ in 0..u64::MAX {
            match self.next_byte()? {
                None if k == 0 => return Ok(None),
                None => break,
                Some(byte) if byte == self.separator => break,
                Some(byte) => {
                    if k < room.len() {
                        room[k] = byte;
                        k += 1;
                    }
                }
            }
        }
        Ok(Some(&room[..k]))
    }
}
