// The tables as they are read: the rows of chip c from row 1,024 * c on, with a count for each chip. Then they are moved
// together, and the counts become starts. Where one chip is read alone, its rows stand from row 0 on, however many there are.
ghost use Rattle.std.specs.Prelude.{◌≡◌, ◌≤◌, replicate};

use super::board::{CHIPS, CODES, DEEP, DEEP_WORDS, ROWS, STARTS};
use script::board::Board;
use script::cells::{between, item, put};
use tables::Row;

// The code that leads nowhere.
pub const NOWHERE: u8 = 6;

// Its fields are open so that it can be made where it stands: what a function returned would stand on the stack more than once.
#[derive(Drop)]
pub struct Sheet {
    pub rows: [u32; ROWS],
    // How many rows each chip has, or, once they are moved together, where they start.
    pub starts: [u32; STARTS],
    pub codes: [u8; CODES],
    pub fixed: [u32; CHIPS],
    // How many chips there are, and codes, once the rows are moved together.
    pub chips: usize,
    pub pairs: usize,
    // The chip whose rows alone are kept, where it is one.
    pub alone: Option<u32>,
}

impl Sheet {
    // No row, no code that leads anywhere, and no chip yet. What this answers may stand on the stack more than once.
    pub fn empty() -> Sheet
        ensures rows { (result.rows ≡ replicate 442368 0) × (result.starts ≡ replicate 145 0) }
        ensures codes { (result.codes ≡ replicate 20736 6) × (result.fixed ≡ replicate 144 0) }
        ensures lent { (result.chips ≡ 0) × (result.pairs ≡ 0) }
        ensures together { result.alone ≡ None }
    {
        Sheet {
            rows: [0; ROWS],
            starts: [0; STARTS],
            codes: [NOWHERE; CODES],
            fixed: [0; CHIPS],
            chips: 0,
            pairs: 0,
            alone: None,
        }
    }

    // Begins to keep the rows of one chip alone.
    pub fn begin_alone(&mut self, chip: u32) {
        self.starts.fill(0);
        self.alone = Some(chip);
    }

    // One more row of a chip. Answers false where the chip has 1,024 already: the row is then counted, and kept only where the chip is read alone.
    pub fn keep_row(&mut self, chip: u32, row: Row) -> bool {
        let count = self.count(chip);
        put(&mut self.starts, chip as usize, count.wrapping_add(1));
        let room = count < 1024;
        match self.alone {
            Some(alone) if alone == chip => self.put_row(count as usize, row),
            None if room => self.put_row(chip as usize * DEEP + count as usize, row),
            _ => {}
        }
        room
    }

    // The code of a chip for a destination.
    pub fn keep_code(&mut self, board: Board, chip: u32, to: u32, code: u32) {
        let place = chip as usize * board.chips() as usize + to as usize;
        put(
            &mut self.codes,
            place,
            u8::try_from(code).unwrap_or(NOWHERE),
        );
    }

    // The route of a chip's fixed-route packets.
    pub fn keep_route(&mut self, chip: u32, route: u32) {
        put(&mut self.fixed, chip as usize, route);
    }

    // How many rows of a chip were read.
    pub fn count(&self, chip: u32) -> u32 {
        item(&self.starts, chip as usize)
    }

    // The rows of the chip that is read alone.
    pub fn rows_alone(&self, chip: u32) -> &[u32] {
        between(&self.rows, 0, word_of(self.count(chip) as usize))
    }

    // Moves all rows together, and writes the starts.
    pub fn move_together(&mut self, board: Board) {
        let chips = board.chips() as usize;
        let mut all = 0;
        for chip in 0..chips {
            let first = chip * DEEP_WORDS;
            let count = (item(&self.starts, chip) as usize).min(DEEP);
            put(&mut self.starts, chip, all as u32);
            self.rows.copy_within(first..first + count * 3, all * 3);
            all += count;
        }
        put(&mut self.starts, chips, all as u32);
        self.chips = chips;
        self.pairs = board.codes();
    }

    // What the model is lent: the tables cut to what is in use.
    pub fn rows(&self) -> &[u32] {
        between(&self.rows, 0, self.start(self.chips))
    }

    pub fn starts(&self) -> &[u32] {
        between(&self.starts, 0, self.chips.saturating_add(1))
    }

    pub fn codes(&self) -> &[u8] {
        between(&self.codes, 0, self.pairs)
    }

    pub fn fixed(&self) -> &[u32] {
        between(&self.fixed, 0, self.chips)
    }

    // The codes in use, which a flood writes.
    pub fn codes_mut(&mut self) -> &mut [u8] {
        let all = self.pairs;
        self.codes.get_mut(..all).unwrap_or_default()
    }

    // A chip's fixed route.
    pub fn route(&self, chip: u32) -> u32 {
        item(&self.fixed, chip as usize)
    }

    // The rows of a chip.
    pub fn rows_of(&self, chip: u32) -> &[u32] {
        let chip = chip as usize;
        between(&self.rows, self.start(chip), self.start(chip + 1))
    }

    // The word that a chip's rows start at.
    fn start(&self, chip: usize) -> usize {
        word_of(item(&self.starts, chip) as usize)
    }

    fn put_row(&mut self, row: usize, own: Row) {
        let first = word_of(row);
        put(&mut self.rows, first, own.key);
        put(&mut self.rows, first + 1, own.mask);
        put(&mut self.rows, first + 2, own.route);
    }
}

// A row of a table: zeros past its end.
pub fn row_at(rows: &[u32], n: usize) -> Row {
    let first = word_of(n);
    Row {
        key: item(rows, first),
        mask: item(rows, first + 1),
        route: item(rows, first + 2),
    }
}

// Where a row stands, in words. No row has a number as large as 1,000,000.
pub fn word_of(row: usize) -> usize
    ensures { result ≤ 3000000 }
{
    row.min(1000000) * 3
}
