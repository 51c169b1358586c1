// A trace, record by record: it is read in pieces, and one record is kept.
ghost use Rattle.std.specs.Prelude.{◌≡◌};

use script::cells::{between, put};
use script::pieces::Bytes;
use std::fs::File;
use std::io;
use std::io::Read;

// Two bytes of length, and as many behind them as they can say.
pub const RECORD: usize = 65537;

#[derive(Clone, Copy, Drop)]
pub struct Records<F = File> {
    bytes: Bytes<F>,
    record: [u8; RECORD],
    // Where the record starts, and how many bytes of it are there.
    at: u64,
    length: usize,
}

// A record, and where it starts.
#[derive(Clone, Copy)]
pub struct Record<'a> {
    pub at: u64,
    pub bytes: &'a [u8],
}

impl<F: Read> Records<F> {
    // Before the first record.
    pub fn of(file: F) -> Self
        ensures whole { result.bytes.file ≡ file }
        ensures unread { (result.bytes.at ≡ 0) × (result.bytes.end ≡ 0) }
        ensures first { (result.at ≡ 0) × (result.length ≡ 0) }
    {
        Records {
            bytes: Bytes::of(file),
            record: [0; RECORD],
            at: 0,
            length: 0,
        }
    }

    // The next record: as many bytes as it says that it has, or as are left of the trace, and none at its end. One that the trace's
    // end cuts short is told to be so by whoever reads it.
    pub fn next_record(&mut self) -> io::Result<Option<Record<'_>>> {
        self.at = self.at.wrapping_add(self.length as u64);
        self.length = 0;
        for _ in 0..u64::MAX {
            if self.is_whole() {
                break;
            }
            match self.bytes.next_byte()? {
                Some(b) => self.keep(b),
                None if self.length == 0 => return Ok(None),
                None => break,
            }
        }
        Ok(Some(Record {
            at: self.at,
            bytes: between(&self.record, 0, self.length),
        }))
    }

    fn is_whole(&self) -> bool {
        match between(&self.record, 0, self.length) {
            [high, low, behind @ ..] => usize::from(u16::from_be_bytes([*high, *low]))
                <= behind.len(),
            _ => false,
        }
    }

    fn keep(&mut self, b: u8) {
        if self.length < RECORD {
            put(&mut self.record, self.length, b);
            self.length += 1;
        }
    }
}
