// What is wrong with a line of FILE, and how it is told.
use super::board::bad_bit;
use super::boards::RowsFault;
use super::paths::Name;
use super::reading::Reading;
use script::board::Board;
use script::complaints::{Wrong, complain};
use script::files::fail;
use script::parts::Place;
use std::io;

#[derive(Drop)]
pub enum Fault<'a> {
    Long,
    Word(Wrong<'a>),
    NoMesh,
    MeshAgain,
    OffMesh(Board, Place),
    Full,
    // Key bits that the mask has not.
    OutsideMask(u32),
    NamedTwice(Place),
    FullForTree(Place),
    // The file of rows that a line names, the chip that they are of, and its number of rows.
    Rows {
        name: &'a [u8],
        chip: Place,
        count: u32,
        fault: RowsFault,
    },
}

impl<'a> From<Wrong<'a>> for Fault<'a> {
    fn from(wrong: Wrong<'a>) -> Fault<'a> {
        Fault::Word(wrong)
    }
}

// The chip that is named so, which has to be there.
pub fn chip_named<'a>(board: Board, place: Place) -> Result<u32, Fault<'a>> {
    board.chip(place).ok_or(Fault::OffMesh(board, place))
}

impl Reading<'_> {
    // Tells what is wrong with the running line, and counts it.
    pub(crate) fn tell(&mut self, line: &[u8], fault: Fault<'_>) -> io::Result<()> {
        self.wrong = self.wrong.wrapping_add(1);
        eprint!(self.rt; "line {}: ", self.line)?;
        match fault {
            Fault::Word(wrong) => complain(self.rt, line, wrong),
            Fault::Rows {
                name,
                chip,
                count,
                fault,
            } => self.tell_rows(name, chip, count, fault),
            Fault::OffMesh(board, place) => self.tell_off_mesh(board, place),
            Fault::OutsideMask(bits) => {
                eprintln!(self.rt;
                    "key bits 0x{bits:08x} are outside the mask, and no packet would match: a key has bits of its mask alone"
                )
            }
            Fault::NamedTwice(chip) => {
                eprintln!(self.rt;
                    "chip {chip} is named twice: it stands once, with all its processors"
                )
            }
            Fault::FullForTree(chip) => {
                eprintln!(self.rt;
                    "chip {chip} has 1,024 rows already, and a router takes no more: the tree has a row there"
                )
            }
            Fault::Long => {
                eprintln!(self.rt; "longer than 4,096 bytes: a line holds one statement")
            }
            Fault::NoMesh => {
                eprintln!(self.rt; "the mesh is wanted first: mesh W H [phase F] [monitor M]")
            }
            Fault::MeshAgain => {
                eprintln!(self.rt; "the mesh stands in the file once, and is there already")
            }
            Fault::Full => {
                eprintln!(self.rt; "the chip has 1,024 rows already, and a router takes no more")
            }
        }
    }

    fn tell_off_mesh(&self, board: Board, place: Place) -> io::Result<()> {
        eprint!(self.rt; "there is no chip {place}: ")?;
        match place {
            Place::Number(_) => { eprintln!(self.rt; "chips go from 0 to {}", board.chips() - 1) }
            Place::At { .. } => {
                eprintln!(self.rt;
                    "x goes from 0 to {}, y from 0 to {}",
                    board.width - 1,
                    board.height - 1
                )
            }
        }
    }

    fn tell_rows(&self, name: &[u8], chip: Place, count: u32, fault: RowsFault) -> io::Result<()> {
        match fault {
            RowsFault::Unread(e) => fail(self.rt, Name::beside(self.file, name).bytes(), &e),
            RowsFault::Cut => {
                eprintln!(self.rt; "the file's length is no multiple of 16, and a row is 16 bytes")
            }
            RowsFault::TooMany => {
                eprintln!(self.rt;
                    "the chip has 1,024 rows before the file ends, and a router takes no more"
                )
            }
            // The row's number among the chip's rows, the bit, and which row of the file it is.
            RowsFault::BadRoute { route, row } => {
                eprintln!(self.rt;
                    "row {count} of chip {chip}: route bit {}, row {row} of the file: bits 0 to 5 are links, 6 to 25 processors",
                    bad_bit(route)
                )
            }
        }
    }
}
