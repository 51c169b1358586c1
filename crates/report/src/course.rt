// How far a run has come, and what it has counted.
use script::board::Board;
use std::time::Clock;
use std::{fmt, io};

// What makes the running call: a line of FILE, or a record of a trace, which is told by its first byte.
#[derive(Clone, Copy)]
pub enum Caller {
    Line(u64),
    Record(u64),
}

impl fmt::Display for Caller {
    fn fmt<W: fmt::Write>(&self, f: &mut fmt::Formatter<W>) -> fmt::Result {
        match self {
            Caller::Line(number) => write!(f, "line {number}"),
            Caller::Record(byte) => write!(f, "record at byte {byte}"),
        }
    }
}

#[derive(Clone, Copy)]
pub struct Course {
    pub board: Board,
    pub caller: Caller,
    // How many pairs of chips floods found no way for, where that is asked.
    pub unreached: Option<u64>,
    // Rounds over, packets injected, units ended in error, calls refused.
    pub rounds: u64,
    pub injected: u64,
    pub errors: u64,
    pub refused: u64,
    // The second that the run was last seen in, and whether it was seen in one before.
    second: u64,
    older: bool,
}

impl Course {
    pub fn on(rt: &HostRuntime, board: Board) -> Course {
        Course {
            board,
            caller: Caller::Line(0),
            unreached: None,
            rounds: 0,
            injected: 0,
            errors: 0,
            refused: 0,
            second: seconds(rt),
            older: false,
        }
    }

    // What a call answered, if it was not refused: a refusal is told and counted.
    pub fn accepted<T: Copy, E: fmt::Display + Copy>(
        &mut self,
        rt: &HostRuntime,
        answer: Result<T, E>,
    ) -> io::Result<Option<T>> {
        match answer {
            Ok(value) => Ok(Some(value)),
            Err(refusal) => {
                let caller = self.caller;
                println!(rt; "{caller}: refused {refusal}")?;
                self.refused = self.refused.wrapping_add(1);
                Ok(None)
            }
        }
    }

    // Tells, on standard error and once a second, that a run goes on: not in its first second.
    pub fn goes_on(&mut self, rt: &HostRuntime) -> io::Result<()> {
        let now = seconds(rt);
        if now == self.second {
            return Ok(());
        }
        if self.older {
            let rounds = self.rounds;
            eprintln!(rt; "round {rounds}")?;
        }
        self.second = now;
        self.older = true;
        Ok(())
    }
}

fn seconds(rt: &HostRuntime) -> u64 {
    match rt.since_1970() {
        Ok(now) => now.as_secs(),
        Err(_) => 0,
    }
}
