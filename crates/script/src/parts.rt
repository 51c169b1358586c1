// The parts of a statement, word by word: what a word stands for, or what was wanted there.
ghost use Rattle.std.specs.Prelude.{◌≤◌, IfOk};

use super::complaints::{Wanted, Wrong};
use super::names::{code_named, link_named};
use super::numbers::number;
use super::words::Words;
use std::fmt;

// A chip as it is named: by its x and y, or by its number.
#[derive(Clone, Copy, Debug, PartialEq, Eq)]
pub enum Place {
    At { x: u32, y: u32 },
    Number(u32),
}

impl Place {
    // A chip by two numbers of a command: behind an x that no chip has stands the chip's number. `where FILE 65536 N KEY` is what the program takes.
    pub fn of_numbers(x: u32, y: u32) -> Place {
        if x == 65536 {
            Place::Number(y)
        } else {
            Place::At { x, y }
        }
    }
}

impl fmt::Display for Place {
    fn fmt<W: fmt::Write>(&self, f: &mut fmt::Formatter<W>) -> fmt::Result {
        match *self {
            Place::At { x, y } => write!(f, "{x} {y}"),
            Place::Number(n) => write!(f, "{n}"),
        }
    }
}

impl<'a> Words<'a> {
    // A number of any 32 bits.
    pub fn number(&mut self) -> Result<u32, Wrong<'a>> {
        within(self.word(), Wanted::Number, 0, u32::MAX)
    }

    // A chip: its x and y, or `chip` and its number.
    pub fn place(&mut self) -> Result<Place, Wrong<'a>> {
        let x = self.x_of_place()?;
        self.place_behind(x)
    }

    // The first word of a chip: its x, or none for `chip` before its number.
    pub fn x_of_place(&mut self) -> Result<Option<u32>, Wrong<'a>> {
        let found = self.word();
        match found {
            b"chip" => Ok(None),
            _ => Ok(Some(coordinate(found)?)),
        }
    }

    // The chip whose second word is next: its y, or its number.
    pub fn place_behind(&mut self, x: Option<u32>) -> Result<Place, Wrong<'a>> {
        match x {
            Some(x) => Ok(Place::At {
                x,
                y: self.coordinate()?,
            }),
            None => Ok(Place::Number(within(self.word(), Wanted::Chip, 0, 65535)?)),
        }
    }

    // An x or a y: as an ID has it, a byte.
    pub fn coordinate(&mut self) -> Result<u32, Wrong<'a>> {
        coordinate(self.word())
    }

    pub fn size(&mut self) -> Result<u32, Wrong<'a>>
        ensures { IfOk result (λ n. (1 ≤ n) × (n ≤ 12)) }
    {
        within(self.word(), Wanted::Size, 1, 12)
    }

    // A named number that may be left out.
    pub fn option(
        &mut self,
        name: &[u8],
        wanted: Wanted,
        least: u32,
        most: u32,
    ) -> Result<Option<u32>, Wrong<'a>> {
        if self.ahead() != name {
            return Ok(None);
        }
        self.word();
        Ok(Some(within(self.word(), wanted, least, most)?))
    }

    // A word that has to stand here.
    pub fn exactly(&mut self, name: &[u8], wanted: Wanted) -> Result<(), Wrong<'a>> {
        let found = self.word();
        if found == name {
            Ok(())
        } else {
            Err(wanted.at(found))
        }
    }

    // The line's end.
    pub fn end(&mut self, wanted: Wanted) -> Result<(), Wrong<'a>> {
        self.exactly(b"", wanted)
    }

    // The name of a file.
    pub fn name(&mut self) -> Result<&'a [u8], Wrong<'a>> {
        self.next().ok_or(Wanted::Name.at(b""))
    }

    pub fn link(&mut self) -> Result<u32, Wrong<'a>> {
        let found = self.word();
        link_named(found).ok_or(Wanted::Link.at(found))
    }

    pub fn code(&mut self) -> Result<u32, Wrong<'a>> {
        let found = self.word();
        code_named(found, b"nowhere", b"monitor").ok_or(Wanted::Code.at(found))
    }
}

fn coordinate(found: &[u8]) -> Result<u32, Wrong<'_>> {
    within(found, Wanted::Coordinate, 0, 255)
}

fn within(found: &[u8], wanted: Wanted, least: u32, most: u32) -> Result<u32, Wrong<'_>>
    ensures { IfOk result (λ n. (least ≤ n) × (n ≤ most)) }
{
    match number(found) {
        Some(n) if (least <= n) & (n <= most) => Ok(n),
        _ => Err(wanted.at(found)),
    }
}
