// FILE's second reading, where it has trees: their rows are joined to those of the chips, behind all others, in the order of their lines.
use super::faults::Fault;
use super::reading::{Past, Reading};
use super::trees::{Grown, grow};
use script::board::Board;
use script::lines::each_line;
use script::words::before_comment;
use std::io;

impl Reading<'_> {
    // Joins the rows of FILE's trees. Answers whether all lines could be read.
    pub(crate) fn join_trees(&mut self) -> io::Result<bool> {
        each_line(self.rt, self.file, |line| {
            self.line = line.number;
            let own = before_comment(line.bytes);
            if let Err(fault) = self.join_tree(own) {
                self.tell(own, fault)?;
            }
            Ok(self.goes_on())
        })
    }

    fn join_tree<'l>(&mut self, line: &'l [u8]) -> Result<(), Fault<'l>> {
        let Some(board) = self.board else {
            return Ok(());
        };
        match grow(board, line) {
            Some(grown) => self.join_rows(board, &grown),
            None => Ok(()),
        }
    }

    // Joins the rows of a tree, up to a chip that takes no more.
    fn join_rows<'l>(&mut self, board: Board, grown: &Grown) -> Result<(), Fault<'l>> {
        for chip in 0..board.chips() {
            if let Some(row) = grown.row_of(chip) {
                if !self.sheet.keep_row(chip, row) & (self.past == Past::Wrong) {
                    return Err(Fault::FullForTree(board.place(chip)));
                }
            }
        }
        Ok(())
    }
}
