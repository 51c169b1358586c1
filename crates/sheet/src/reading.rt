// FILE's first reading: every line is understood or refused, and the tables are kept. The rows of its trees are joined to them at a second.
use super::boards::{RowsFault, read_rows};
use super::faults::{Fault, chip_named};
use super::paths::Name;
use super::storing::Sheet;
use super::trees::look_at_targets;
use packet::control::{is_fixed, kind_of};
use packet::kind::Kind;
use script::board::Board;
use script::lines::each_line;
use script::statements::{Statement, read_statement};
use script::words::before_comment;
use std::io;
use tables::Row;

// No more lines are told to be wrong.
const MOST: u32 = 10;

// What becomes of rows past a chip's 1,024.
#[derive(Clone, Copy, Debug, PartialEq, Eq)]
pub enum Past {
    Wrong,
    Counted,
}

// What FILE holds beside its tables: the mesh, whether there are codes, or P2P packets; whether there are fixed routes, or fixed-route packets; whether codes are flooded.
#[derive(Clone, Copy)]
pub struct Contents {
    pub board: Board,
    pub p2p: bool,
    pub fixed: bool,
    pub flood: bool,
}

// Where FILE's reading stands.
#[derive(Drop)]
pub(crate) struct Reading<'a> {
    pub(crate) rt: &'a HostRuntime,
    pub(crate) file: &'a [u8],
    pub(crate) past: Past,
    pub(crate) sheet: &'a mut Sheet,
    pub(crate) board: Option<Board>,
    // The number of the running line, and how many lines were wrong.
    pub(crate) line: u64,
    pub(crate) wrong: u32,
    pub(crate) p2p: bool,
    pub(crate) fixed: bool,
    pub(crate) flood: bool,
    pub(crate) tree: bool,
}

// Reads FILE into a sheet. Where something is wrong with it that is told, and there are no contents.
pub fn read_file(
    rt: &HostRuntime,
    file: &[u8],
    past: Past,
    sheet: &mut Sheet,
) -> io::Result<Option<Contents>> {
    let mut r = Reading {
        rt,
        file,
        past,
        sheet,
        board: None,
        line: 0,
        wrong: 0,
        p2p: false,
        fixed: false,
        flood: false,
        tree: false,
    };
    if !r.read_lines()? {
        return Ok(None);
    }
    if r.tree & (r.wrong == 0) {
        if !r.join_trees()? {
            return Ok(None);
        }
    }
    r.contents()
}

impl Reading<'_> {
    // Whether all lines could be read.
    fn read_lines(&mut self) -> io::Result<bool> {
        each_line(self.rt, self.file, |line| {
            self.line = line.number;
            let own = before_comment(line.bytes);
            if let Err(fault) = self.read_line(line.long, own) {
                self.tell(own, fault)?;
            }
            Ok(self.goes_on())
        })
    }

    pub(crate) fn goes_on(&self) -> bool {
        self.wrong < MOST
    }

    // What is left to say when all lines are read.
    fn contents(&self) -> io::Result<Option<Contents>> {
        if !self.goes_on() {
            eprintln!(self.rt; "and so on: reading ends here")?;
        }
        if self.wrong != 0 {
            return Ok(None);
        }
        let Some(board) = self.board else {
            eprintln!(self.rt;
                "the file has no mesh: mesh W H [phase F] [monitor M] is wanted first"
            )?;
            return Ok(None);
        };
        Ok(Some(Contents {
            board,
            p2p: self.p2p,
            fixed: self.fixed,
            flood: self.flood,
        }))
    }

    fn read_line<'l>(&mut self, long: bool, line: &'l [u8]) -> Result<(), Fault<'l>> {
        if long {
            return Err(Fault::Long);
        }
        let s = read_statement(line)?;
        self.p2p |= is_p2p(s);
        self.fixed |= is_fixed_route(s);
        self.flood |= matches!(s, Statement::Flood);
        match (s, self.board) {
            (Statement::Nothing, _) => Ok(()),
            (Statement::Mesh(board), None) => {
                self.board = Some(board);
                Ok(())
            }
            (Statement::Mesh(_), Some(_)) => Err(Fault::MeshAgain),
            (_, None) => Err(Fault::NoMesh),
            (_, Some(board)) => self.with_table(board, s),
        }
    }

    fn with_table<'l>(&mut self, board: Board, s: Statement<'l>) -> Result<(), Fault<'l>> {
        match s {
            Statement::Row {
                place,
                key,
                mask,
                route,
            } => self.with_row(chip_named(board, place)?, Row { key, mask, route }),
            Statement::Rows { place, name } => self.with_rows(
                board,
                chip_named(board, place)?,
                name,
            ),
            Statement::Tree {
                place,
                key,
                mask,
                targets,
            } => {
                self.tree = true;
                chip_named(board, place)?;
                look_at_targets(board, key, mask, targets)
            }
            Statement::Code { place, to, code } => {
                let chip = chip_named(board, place)?;
                let to = chip_named(board, to)?;
                self.sheet.keep_code(board, chip, to, code);
                Ok(())
            }
            Statement::Route { place, route } => {
                self.sheet.keep_route(chip_named(board, place)?, route);
                Ok(())
            }
            _ => Ok(()),
        }
    }

    fn with_row<'l>(&mut self, chip: u32, row: Row) -> Result<(), Fault<'l>> {
        if self.sheet.keep_row(chip, row) | (self.past == Past::Counted) {
            Ok(())
        } else {
            Err(Fault::Full)
        }
    }

    fn with_rows<'l>(&mut self, board: Board, chip: u32, name: &'l [u8]) -> Result<(), Fault<'l>> {
        let path = Name::beside(self.file, name);
        match read_rows(self.rt, path.bytes(), chip, self.sheet) {
            Ok(()) => Ok(()),
            Err(RowsFault::TooMany) if self.past == Past::Counted => Ok(()),
            Err(fault) => Err(Fault::Rows {
                name,
                chip: board.place(chip),
                count: self.sheet.count(chip),
                fault,
            }),
        }
    }
}

// Whether a statement gives a code or sends a P2P packet.
fn is_p2p(s: Statement<'_>) -> bool {
    match s {
        Statement::Code { .. } => true,
        Statement::Send { packet, .. } => kind_of(packet.control) == u32::from(Kind::P2p),
        _ => false,
    }
}

// Whether a statement gives a fixed route or sends a fixed-route packet.
fn is_fixed_route(s: Statement<'_>) -> bool {
    match s {
        Statement::Route { .. } => true,
        Statement::Send { packet, .. } => is_fixed(packet.control),
        _ => false,
    }
}
