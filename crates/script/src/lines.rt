// A file, line by line: of a line the first 4,096 bytes are kept.
ghost use Rattle.std.specs.Prelude.{◌≡◌};

use super::cells::between;
use super::files::{fail, open_read};
use super::pieces::Bytes;
use std::fs::File;
use std::io;
use std::io::Read;

pub const LINE: usize = 4096;

#[derive(Clone, Copy, Drop)]
pub struct Lines<F = File> {
    bytes: Bytes<F>,
    line: [u8; LINE],
    // The line's number, how many bytes of it are kept, and whether it has more.
    number: u64,
    length: usize,
    long: bool,
}

// A line without its LF.
#[derive(Clone, Copy)]
pub struct Line<'a> {
    pub number: u64,
    pub bytes: &'a [u8],
    pub long: bool,
}

impl<F: Read> Lines<F> {
    // Before the first line.
    pub fn of(file: F) -> Self
        ensures whole { result.bytes.file ≡ file }
        ensures unread { (result.bytes.at ≡ 0) × (result.bytes.end ≡ 0) }
        ensures first { (result.number ≡ 0) × (result.length ≡ 0) }
    {
        Lines {
            bytes: Bytes::of(file),
            line: [0; LINE],
            number: 0,
            length: 0,
            long: false,
        }
    }

    // The next line: none at the file's end. A last line may lack its LF. Nothing says that a file ends: the turns are counted to a number that no file uses up.
    pub fn next_line(&mut self) -> io::Result<Option<Line<'_>>> {
        self.begin();
        for _ in 0..u64::MAX {
            match self.bytes.next_byte()? {
                None if self.length == 0 => return Ok(None),
                None | Some(b'\n') => break,
                Some(b) => self.keep(b),
            }
        }
        Ok(Some(Line {
            number: self.number,
            bytes: between(&self.line, 0, self.length),
            long: self.long,
        }))
    }

    fn begin(&mut self) {
        self.number = self.number.wrapping_add(1);
        self.length = 0;
        self.long = false;
    }

    fn keep(&mut self, b: u8) {
        if self.length < LINE {
            self.line[self.length] = b;
            self.length += 1;
        } else {
            self.long = true;
        }
    }
}

// Has each line of a file taken, up to one that is said to be the last. Answers whether the file could be read: if not, that is told.
pub fn each_line<F: FnMut(Line<'_>) -> io::Result<bool>>(
    rt: &HostRuntime,
    file: &[u8],
    mut take: F,
) -> io::Result<bool>
    requires { F.IsAlwaysCallable take }
{
    let from = match open_read(rt, file) {
        Ok(from) => from,
        Err(e) => {
            fail(rt, file, &e)?;
            return Ok(false);
        }
    };
    let mut lines = Lines::of(&from);
    for _ in 0..u64::MAX {
        match lines.next_line() {
            Ok(Some(line)) => {
                if !take(line)? {
                    break;
                }
            }
            Ok(None) => break,
            Err(e) => {
                fail(rt, file, &e)?;
                return Ok(false);
            }
        }
    }
    Ok(true)
}
