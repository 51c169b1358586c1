// FILE's second reading: its calls are made in order, with all its tables. A flood writes the codes that later calls are lent.
use super::keeping::{injection, link_change, registers_read};
use super::play::Play;
use report::course::Caller;
use script::lines::Lines;
use script::parts::Place;
use script::statements::{Statement, read_statement};
use script::words::before_comment;
use std::fs::File;
use std::io;

// No chip has this number.
const NO_CHIP: u32 = 65535;

// Which of FILE's calls are made.
#[derive(Clone, Copy, Debug, PartialEq, Eq)]
pub enum Calls {
    All,
    LinksAndFloods,
}

impl<'a> Play<'a> {
    // Makes the calls of FILE. What was read once is taken to be the same again.
    pub fn run(&mut self, from: File, which: Calls) -> io::Result<()> {
        let mut lines = Lines::of(&from);
        for _ in 0..u64::MAX {
            let Ok(Some(line)) = lines.next_line() else {
                break;
            };
            self.course.caller = Caller::Line(line.number);
            if let Ok(statement) = read_statement(before_comment(line.bytes)) {
                self.make_stated(statement, which)?;
            }
        }
        Ok(())
    }

    // Makes the call that a statement asks for, if it asks for one of those.
    fn make_stated(&mut self, statement: Statement<'_>, which: Calls) -> io::Result<()> {
        match (which, statement) {
            (_, Statement::Link { place, link, up }) => {
                self.make(link_change(self.chip(place), link, up))
            }
            (_, Statement::Flood) => self.flood(),
            (Calls::LinksAndFloods, _) => Ok(()),
            (Calls::All, Statement::Send { place, packet }) => {
                self.make(injection(self.chip(place), packet))
            }
            (Calls::All, Statement::Rounds(n)) => self.rounds(n),
            (Calls::All, Statement::UntilQuiet) => self.until_quiet(),
            (Calls::All, Statement::Registers { place }) => {
                self.make(registers_read(self.chip(place)))
            }
            (Calls::All, _) => Ok(()),
        }
    }

    // The chip that is named so: one that is not there is refused as one that no mesh has.
    fn chip(&self, place: Place) -> u32 {
        self.course.board.chip(place).unwrap_or(NO_CHIP)
    }
}
