// A lab's own tables, tried on the model: `lab run FILE` makes the calls of FILE and tells what happened. The last line of
// standard output is the status: 0 all was accepted, 1 a call was refused, 2 a file could not be read or understood.
#![tactic(auto)]

mod commands;
mod playing;
mod showing;
mod status;

use acting::play::Memory;
use sheet::board::{CHIPS, CODES, LOG, ROWS, STARTS, WORDS};
use sheet::storing::{NOWHERE, Sheet};
use std::io;

fn main(rt: HostRuntime) -> io::Result<()> {
    let mut sheet = Sheet {
        rows: [0; ROWS],
        starts: [0; STARTS],
        codes: [NOWHERE; CODES],
        fixed: [0; CHIPS],
        chips: 0,
        pairs: 0,
        alone: None,
    };
    let mut memory = Memory {
        mesh: [0; WORDS],
        log: [0; LOG],
    };
    let status = commands::status_of(&rt, &mut sheet, &mut memory)?;
    println!(rt; "status {status}")
}
