// What is odd in FILE's tables, a line each. No call is made.
use super::board::{DEEP, DEEP_WORDS};
use super::covering::coverer;
use super::reading::{Contents, Past, read_file};
use super::storing::{Sheet, row_at};
use covered::used;
use fewer::call::fewer;
use script::board::{Board, opposite};
use script::names::link_name;
use script::routes::has;
use std::io;
use tables::Row;

// How many lines were told, whether tables are such as the model refuses, and what FILE holds.
#[derive(Clone, Copy)]
pub struct Findings {
    pub odd: u64,
    pub refused: bool,
    pub contents: Contents,
}

// None for a file that cannot be read or understood, which is told.
pub fn check(rt: &HostRuntime, file: &[u8], sheet: &mut Sheet) -> io::Result<Option<Findings>> {
    let Some(contents) = read_file(rt, file, Past::Counted, sheet)? else {
        return Ok(None);
    };
    let refused = tell_over(rt, contents.board, sheet)?;
    sheet.move_together(contents.board);
    let mut look = Look {
        rt,
        board: contents.board,
        sheet,
        odd: 0,
    };
    look.tell_chips()?;
    look.tell_codes(contents)?;
    look.tell_fixed(contents)?;
    Ok(Some(Findings {
        odd: look.odd,
        refused,
        contents,
    }))
}

// The chips with more than 1,024 rows: whether there are any.
fn tell_over(rt: &HostRuntime, board: Board, sheet: &Sheet) -> io::Result<bool> {
    let mut over = false;
    for chip in 0..board.chips() {
        let count = sheet.count(chip);
        if count > 1024 {
            println!(rt;
                "chip {}: {count} rows, and a router takes 1,024: what follows is of the first 1,024",
                board.place(chip)
            )?;
            over = true;
        }
    }
    Ok(over)
}

// A look at a sheet, and how many lines were told.
#[derive(Clone, Copy)]
struct Look<'a> {
    rt: &'a HostRuntime,
    board: Board,
    sheet: &'a Sheet,
    odd: u64,
}

impl Look<'_> {
    fn counted(&mut self) {
        self.odd = self.odd.wrapping_add(1);
    }

    fn tell_chips(&mut self) -> io::Result<()> {
        for chip in 0..self.board.chips() {
            let rows = self.sheet.rows_of(chip);
            if rows.is_empty() {
                self.tell_ways_in(chip)?;
            } else {
                self.tell_rows(chip, rows)?;
                self.tell_fewer(chip, rows)?;
            }
        }
        Ok(())
    }

    fn tell_rows(&mut self, chip: u32, rows: &[u32]) -> io::Result<()> {
        for n in 0..rows.len() / 3 {
            let row = row_at(rows, n);
            if used(row.key, row.mask) {
                self.tell_row(chip, rows, n, row)?;
            } else {
                println!(self.rt;
                    "chip {} row {n}: matches no key: key bits 0x{:08x} are outside its mask",
                    self.board.place(chip),
                    row.key ^ (row.key & row.mask)
                )?;
                self.counted();
            }
        }
        Ok(())
    }

    // A row that matches keys.
    fn tell_row(&mut self, chip: u32, rows: &[u32], n: usize, row: Row) -> io::Result<()> {
        if row.route == 0 {
            println!(self.rt; "chip {} row {n}: route has no bit", self.board.place(chip))?;
            self.counted();
        }
        if let Some(by) = coverer(rows, n) {
            println!(self.rt;
                "chip {} row {n}: covered by row {by}",
                self.board.place(chip)
            )?;
            self.counted();
        }
        Ok(())
    }

    // How many rows of a chip could go, where some could.
    fn tell_fewer(&mut self, chip: u32, rows: &[u32]) -> io::Result<()> {
        let mut left = [0u32; DEEP_WORDS];
        let mut gone = [0u32; DEEP];
        let f = fewer(rows, &mut left, &mut gone);
        if f.gone != 0 {
            println!(self.rt;
                "chip {}: {} of its rows could go, and {} would do the same: fewer FILE prints them",
                self.board.place(chip),
                f.gone,
                f.rows
            )?;
            self.counted();
        }
        Ok(())
    }

    // The links by which some row leads to a chip without rows.
    fn tell_ways_in(&mut self, chip: u32) -> io::Result<()> {
        for link in 0..6 {
            let from = self.board.beyond(chip, link);
            let by = opposite(link);
            if let Some(row) = leading_by(self.sheet.rows_of(from), by) {
                println!(self.rt;
                    "chip {}: no rows, and chip {} row {row} leads to it by {}: default routing takes the packet on",
                    self.board.place(chip),
                    self.board.place(from),
                    link_name(by)
                )?;
                self.counted();
            }
        }
        Ok(())
    }

    // Says where no code leads anywhere, if the file speaks of P2P packets at all and does not flood.
    fn tell_codes(&mut self, contents: Contents) -> io::Result<()> {
        if contents.p2p & !contents.flood & self.sheet.codes().iter().all(|code| *code == 6) {
            println!(self.rt; "codes: every one is nowhere, so no p2p packet goes anywhere")?;
            self.counted();
        }
        Ok(())
    }

    // What is odd in the fixed routes, if the file speaks of fixed-route packets at all.
    fn tell_fixed(&mut self, contents: Contents) -> io::Result<()> {
        if !contents.fixed {
            return Ok(());
        }
        if self.sheet.fixed().iter().all(|route| *route == 0) {
            println!(self.rt;
                "fixed routes: no chip has one, so every fixed-route packet is swallowed"
            )?;
            self.counted();
            return Ok(());
        }
        for chip in 0..self.board.chips() {
            self.tell_fixed_ways(chip)?;
        }
        Ok(())
    }

    // The links by which a chip's fixed route leads to a chip that has none.
    fn tell_fixed_ways(&mut self, chip: u32) -> io::Result<()> {
        for link in 0..6 {
            let to = self.board.beyond(chip, link);
            if has(self.sheet.route(chip), link) & (self.sheet.route(to) == 0) {
                println!(self.rt;
                    "chip {}: its fixed route leads by {} to chip {}, which has none: fixed-route packets are swallowed there",
                    self.board.place(chip),
                    link_name(link),
                    self.board.place(to)
                )?;
                self.counted();
            }
        }
        Ok(())
    }
}

// The first row of a table that matches keys and whose route has a link.
fn leading_by(rows: &[u32], link: u32) -> Option<usize> {
    (0..rows.len() / 3).position(|n| {
        let row = row_at(rows, n);
        used(row.key, row.mask) & has(row.route, link)
    })
}
