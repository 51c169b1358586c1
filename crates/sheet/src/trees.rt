// A `tree` line: the chips and processors that it names, and the rows that lead a packet there.
use super::board::{CHIPS, STARTS};
use super::faults::{Fault, chip_named};
use super::storing::row_at;
use script::board::Board;
use script::cells::{between, item, put};
use script::statements::{Statement, read_statement};
use script::words::Words;
use tables::Row;
use tree::call::tree;

// Two words a target, three words a row, and one of either a chip at the most.
const TARGETS: usize = 288;

pub const TREE: usize = 432;

// A tree's rows, and where each chip's start.
#[derive(Clone, Copy)]
pub struct Grown {
    rows: [u32; TREE],
    starts: [u32; STARTS],
}

impl Grown {
    // The tree's row at a chip, if it has one.
    pub fn row_of(&self, chip: u32) -> Option<Row> {
        let chip = chip as usize;
        let first = item(&self.starts, chip);
        if first == item(&self.starts, chip + 1) {
            None
        } else {
            Some(row_at(&self.rows, first as usize))
        }
    }
}

// The targets of a line: a chip and its processors each.
#[derive(Clone, Copy)]
struct Targets {
    words: [u32; TARGETS],
    count: usize,
}

impl Targets {
    fn none() -> Targets {
        Targets {
            words: [0; TARGETS],
            count: 0,
        }
    }

    // The targets of a line in order, up to one that is wrong. One more than there are chips is named twice.
    fn read<'a>(&mut self, board: Board, mut words: Words<'a>) -> Result<(), Fault<'a>> {
        let mut named = [false; CHIPS];
        for n in 0..CHIPS + 1 {
            let target = words.target()?;
            let chip = chip_named(board, target.place)?;
            if item(&named, chip as usize) {
                return Err(Fault::NamedTwice(board.place(chip)));
            }
            put(&mut named, chip as usize, true);
            put(&mut self.words, 2 * n, chip);
            put(&mut self.words, 2 * n + 1, target.set);
            self.count = 2 * n + 2;
            if !target.more {
                break;
            }
        }
        Ok(())
    }
}

// At FILE's first reading: the line is looked at, and its rows are left for the second.
pub fn look_at_targets<'a>(
    board: Board,
    key: u32,
    mask: u32,
    targets: Words<'a>,
) -> Result<(), Fault<'a>> {
    if key & mask != key {
        return Err(Fault::OutsideMask(key ^ (key & mask)));
    }
    Targets::none().read(board, targets)
}

// The tree of a line, if it has one.
pub fn grow(board: Board, line: &[u8]) -> Option<Grown> {
    match read_statement(line) {
        Ok(
            Statement::Tree {
                place,
                key,
                mask,
                targets,
            },
        ) => {
            let source = board.chip(place)?;
            let mut known = Targets::none();
            // What is wrong is told at FILE's first reading: where FILE is another by now, the targets before it are taken.
            let _ = known.read(board, targets);
            grow_from(
                board,
                source,
                key,
                mask,
                between(&known.words, 0, known.count),
            )
        }
        _ => None,
    }
}

fn grow_from(board: Board, source: u32, key: u32, mask: u32, targets: &[u32]) -> Option<Grown> {
    let mut grown = Grown {
        rows: [0; TREE],
        starts: [0; STARTS],
    };
    let room = board.chips() as usize + 1;
    let t = tree(
        board.width,
        board.height,
        source,
        key,
        mask,
        targets,
        &mut grown.rows,
        &mut grown.starts[..room],
    );
    if t.refusal == 0 { Some(grown) } else { None }
}
