// FILE printed line by line: the rows of a chip stand where its first row stood.
use super::chip::{MOST, print_chip};
use script::board::Board;
use script::cells::{item, put};
use script::lines::each_line;
use script::statements::{Statement, read_statement};
use script::words::before_comment;
use sheet::board::CHIPS;
use sheet::reading::{Past, read_file};
use sheet::storing::Sheet;
use sheet::trees::{Grown, grow};
use std::io;
use std::io::Write;

// What became of FILE: it is printed, a chip has too many rows, or it cannot be read or understood. The last two are told.
#[derive(Clone, Copy, Debug, PartialEq, Eq)]
pub enum Printed {
    Whole,
    TooMany,
    Unread,
}

// FILE that is printed, and the chips whose rows are printed already.
#[derive(Drop)]
struct Printing<'a> {
    rt: &'a HostRuntime,
    file: &'a [u8],
    board: Board,
    sheet: &'a mut Sheet,
    done: [bool; CHIPS],
}

pub fn print_fewer(rt: &HostRuntime, file: &[u8], sheet: &mut Sheet) -> io::Result<Printed> {
    let Some(contents) = read_file(rt, file, Past::Counted, sheet)? else {
        return Ok(Printed::Unread);
    };
    let board = contents.board;
    if let Some(chip) = first_over(board, sheet) {
        eprintln!(rt;
            "chip {}: {} rows, and no more than 16,384 are made fewer",
            board.place(chip),
            sheet.count(chip)
        )?;
        return Ok(Printed::TooMany);
    }
    let mut printing = Printing {
        rt,
        file,
        board,
        sheet,
        done: [false; CHIPS],
    };
    if printing.print_lines()? {
        Ok(Printed::Whole)
    } else {
        Ok(Printed::Unread)
    }
}

// The first chip with too many rows.
fn first_over(board: Board, sheet: &Sheet) -> Option<u32> {
    (0..board.chips()).find(|chip| MOST < sheet.count(*chip) as usize)
}

impl Printing<'_> {
    // Whether all lines could be read.
    fn print_lines(&mut self) -> io::Result<bool> {
        each_line(self.rt, self.file, |line| {
            self.print_line(line.bytes)?;
            Ok(true)
        })
    }

    // A line with a chip's rows is the first such line of its chip, or is left out; a tree becomes a comment, with the rows of its chips
    // below it; any other line is printed as it is.
    fn print_line(&mut self, line: &[u8]) -> io::Result<()> {
        let own = before_comment(line);
        if let Some(chip) = self.chip_of_rows(own) {
            return self.print_once(chip);
        }
        match grow(self.board, own) {
            Some(grown) => {
                print!(self.rt; "# ")?;
                self.print_bytes(line)?;
                self.print_tree(&grown)
            }
            None => self.print_bytes(line),
        }
    }

    // A line may be any bytes.
    fn print_bytes(&self, line: &[u8]) -> io::Result<()> {
        let mut to = self.rt.stdout();
        to.write_all(line)?;
        to.write_all(b"\n")
    }

    // The rows of all chips that a tree has a row at.
    fn print_tree(&mut self, grown: &Grown) -> io::Result<()> {
        for chip in 0..self.board.chips() {
            if grown.row_of(chip).is_some() {
                self.print_once(chip)?;
            }
        }
        Ok(())
    }

    // The rows of a chip, where they are not printed yet.
    fn print_once(&mut self, chip: u32) -> io::Result<()> {
        if item(&self.done, chip as usize) {
            return Ok(());
        }
        put(&mut self.done, chip as usize, true);
        print_chip(self.rt, chip, self.board.place(chip), self.file, self.sheet)
    }

    // The chip that a line has rows of.
    fn chip_of_rows(&self, line: &[u8]) -> Option<u32> {
        match read_statement(line) {
            Ok(Statement::Row { place, .. } | Statement::Rows { place, .. }) => self
                .board
                .chip(place),
            _ => None,
        }
    }
}
