// A file, byte by byte: it is read in pieces. The file is the reader's own, or it is borrowed: then the reader can be copied.
ghost use Rattle.std.specs.Prelude.{◌≡◌};

use std::fs::File;
use std::io;
use std::io::Read;

pub const PIECE: usize = 65536;

#[derive(Clone, Copy, Drop)]
pub struct Bytes<F = File> {
    file: F,
    piece: [u8; PIECE],
    // What is left of the piece.
    at: usize,
    end: usize,
}

impl<F: Read> Bytes<F> {
    // Nothing is read yet.
    pub fn of(file: F) -> Self
        ensures whole { result.file ≡ file }
        ensures unread { (result.at ≡ 0) × (result.end ≡ 0) }
    {
        Bytes {
            file,
            piece: [0; PIECE],
            at: 0,
            end: 0,
        }
    }

    // The next byte: none at the file's end.
    pub fn next_byte(&mut self) -> io::Result<Option<u8>> {
        if self.at >= self.end {
            self.end = self.file.read(&mut self.piece)?;
            self.at = 0;
        }
        if self.at >= self.end {
            return Ok(None);
        }
        let next = self.piece.get(self.at).copied();
        self.at += 1;
        Ok(next)
    }
}
