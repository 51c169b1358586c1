// What a command comes to, and how one ends before its end.
use report::course::Course;
use script::files::{fail, open_overwrite, open_read};
use std::fs::File;
use std::{fmt, io};

// The program's last line tells it by its number.
#[derive(Clone, Copy, Debug, PartialEq, Eq)]
pub enum Status {
    Accepted = 0,
    Refused = 1,
    // A file could not be read or understood.
    Unread = 2,
}

impl Status {
    pub fn of(c: &Course) -> Status {
        if c.refused == 0 {
            Status::Accepted
        } else {
            Status::Refused
        }
    }
}

impl fmt::Display for Status {
    fn fmt<W: fmt::Write>(&self, f: &mut fmt::Formatter<W>) -> fmt::Result {
        write!(f, "{}", *self as u32)
    }
}

// Why a command ends before its end: what went wrong is told already, or telling itself failed.
#[derive(Drop)]
pub enum Stop {
    Told(Status),
    Io(io::Error),
}

impl From<io::Error> for Stop {
    fn from(e: io::Error) -> Stop {
        Stop::Io(e)
    }
}

// The file of a path, opened to be read. Where that fails it is told.
pub fn readable(rt: &HostRuntime, path: &[u8]) -> Result<File, Stop> {
    match open_read(rt, path) {
        Ok(from) => Ok(from),
        Err(e) => Err(failed(rt, path, &e)),
    }
}

// The same of a file to be written.
pub fn writable(rt: &HostRuntime, path: &[u8]) -> Result<File, Stop> {
    match open_overwrite(rt, path) {
        Ok(to) => Ok(to),
        Err(e) => Err(failed(rt, path, &e)),
    }
}

pub fn failed(rt: &HostRuntime, path: &[u8], e: &io::Error) -> Stop {
    match fail(rt, path, e) {
        Ok(()) => Stop::Told(Status::Unread),
        Err(e) => Stop::Io(e),
    }
}
