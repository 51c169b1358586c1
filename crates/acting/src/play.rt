// A mesh that is played on: what its calls are made with, and how far the run has come.
use buffer::moving::{inject, round};
use mesh::Added;
use mesh::lent::Tables;
use report::course::Course;
use sheet::board::{LOG, WORDS};
use sheet::storing::Sheet;
use std::fs::File;
use std::io;

// All memory of the program, but for the sheet, for what files are read into and for the room that a round may be lent. The sheet stands
// beside it: made inside it, it would stand on the stack twice.
#[derive(Drop)]
pub struct Memory {
    pub mesh: [u32; WORDS],
    pub log: [u32; LOG],
}

impl Memory {
    // Injects the packet of some bytes at a chip.
    pub fn inject(&mut self, sheet: &Sheet, chip: u32, bytes: &[u8]) -> Added {
        let tables = Tables::new(sheet.rows(), sheet.starts(), sheet.codes(), sheet.fixed());
        inject(&mut self.mesh, &mut self.log, chip, bytes, &tables, 0)
    }

    // A round, with room for groups.
    pub fn round(&mut self, sheet: &Sheet, room: &mut [u32]) -> Added {
        let tables = Tables::new(sheet.rows(), sheet.starts(), sheet.codes(), sheet.fixed());
        round(&mut self.mesh, &mut self.log, &tables, room)
    }
}

#[derive(Drop)]
pub struct Play<'a> {
    pub rt: &'a HostRuntime,
    pub course: Course,
    pub sheet: &'a mut Sheet,
    pub memory: &'a mut Memory,
    // Where accepted calls are kept, if they are.
    pub trace: Option<File>,
    // What keeping accepted calls, or reading them, failed with last.
    pub failure: Option<io::Error>,
}
