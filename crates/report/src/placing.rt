// Where lent tables are wrong, in words: the place that the model tells with numbers 15 to 18.
use super::telling::Refusal;
use script::board::Board;
use script::cells::item;
use script::parts::Place;
use sheet::board::bad_bit;
use sheet::storing::{Sheet, row_at};
use std::fmt;

// A refusal of a call that is lent tables, and the place that is told with it.
#[derive(Clone, Copy)]
pub struct LentRefusal<'a> {
    pub refusal: Refusal,
    pub place: u32,
    pub board: Board,
    pub sheet: &'a Sheet,
}

impl<'a> fmt::Display for LentRefusal<'a> {
    fn fmt<W: fmt::Write>(&self, f: &mut fmt::Formatter<W>) -> fmt::Result {
        let place = self.place;
        match self.refusal {
            Refusal(15) => write!(f, "15: bad starts at position {place}"),
            Refusal(16) => write!(f, "16: chip {}: over 1,024 rows", self.board.place(place)),
            Refusal(17) => write!(f, "17: {}", self.row()),
            Refusal(18) => write!(
                f,
                "18: fixed route of chip {}: a bit above 25, or their number is wrong",
                self.board.place(place)
            ),
            other => other.fmt(f),
        }
    }
}

impl<'a> LentRefusal<'a> {
    // The row that is wrong, which is told by its number over all chips.
    fn row(&self) -> BadRow {
        let starts = self.sheet.starts();
        let chip = chip_of(self.place, starts);
        let route = row_at(self.sheet.rows(), self.place as usize).route;
        BadRow {
            number: self.place.saturating_sub(item(starts, chip as usize)),
            chip: self.board.place(chip),
            bit: bad_bit(route),
        }
    }
}

// A row by its number on its chip, and the bit of its route that names neither a link nor a processor.
#[derive(Clone, Copy)]
struct BadRow {
    number: u32,
    chip: Place,
    bit: u32,
}

impl fmt::Display for BadRow {
    fn fmt<W: fmt::Write>(&self, f: &mut fmt::Formatter<W>) -> fmt::Result {
        write!(
            f,
            "row {} of chip {}: route bit {}",
            self.number, self.chip, self.bit
        )
    }
}

// The last chip whose rows start at or before a row.
fn chip_of(row: u32, starts: &[u32]) -> u32 {
    (0..143)
        .find(|chip| ends_behind(row, starts, *chip as usize))
        .unwrap_or(143)
}

// Whether a chip's rows end behind a row, or the chip is the last.
fn ends_behind(row: u32, starts: &[u32], chip: usize) -> bool {
    match starts.get(chip..) {
        Some([_, next, _, ..]) => row < *next,
        _ => true,
    }
}
