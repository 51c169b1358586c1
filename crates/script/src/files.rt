// Files by their paths, and what is told where one fails.
use super::cells::between;
use std::fs::File;
use std::io;
use std::io::{Cursor, Write};

// The system's numbers for a path that is none, and for text in bytes that are none.
const INVALID: i32 = 22;

const NO_TEXT: i32 = 84;

// No reason is longer.
const REASON: usize = 256;

// Opens a file to be read.
pub fn open_read(rt: &HostRuntime, path: &[u8]) -> io::Result<File> {
    File::open(rt, name_of(path)?)
}

// Opens a file to be written from its start. What was in it goes.
pub fn open_overwrite(rt: &HostRuntime, path: &[u8]) -> io::Result<File> {
    File::create(rt, name_of(path)?)
}

// A path that is not UTF-8 is refused, since the library takes no other.
fn name_of(path: &[u8]) -> io::Result<&str> {
    match std::str::from_utf8(path) {
        Ok(name) => Ok(name),
        Err(_) => Err(io::Error::from_raw_os_error(NO_TEXT)),
    }
}

// The system's number for an error: of those that the library finds by itself, a 0 in a path is one that the system would not take either.
pub fn number_of(e: &io::Error) -> i32 {
    e.raw_os_error().unwrap_or(INVALID)
}

// Tells, on standard error, what failed and the system's words for the error.
pub fn fail(rt: &HostRuntime, what: &[u8], e: &io::Error) -> io::Result<()> {
    let mut room = Cursor::new([0u8; REASON]);
    write!(room, "{}", io::Error::from_raw_os_error(number_of(e)))?;
    let length = room.position() as usize;
    let reason = room.into_inner();
    let mut to = rt.stderr();
    to.write_all(what)?;
    to.write_all(b": ")?;
    to.write_all(without_number(between(&reason, 0, length)))?;
    to.write_all(b"\n")
}

// An error's words without the number that the library adds to them in brackets.
fn without_number(reason: &[u8]) -> &[u8] {
    let bracket = reason.iter().rposition(|b| *b == b'(').unwrap_or(0);
    between(reason, 0, bracket.saturating_sub(1))
}
