// A line for each delivery that a call put into the log.
use super::play::Play;
use packet::control::{carries_of, is_marked, mark_of};
use report::course::Course;
use report::telling::Contents;
use script::cells::item;
use std::{fmt, io};

impl<'a> Play<'a> {
    // Tells all deliveries of a call. `came` says whether they came by a link, in a round.
    pub fn tell_deliveries(&mut self, added: u32, came: bool) -> io::Result<()> {
        for record in self.memory.log.chunks_exact(6).take(added as usize) {
            tell_delivery(self.rt, &mut self.course, &Delivery::of(record), came)?;
        }
        Ok(())
    }
}

fn tell_delivery(rt: &HostRuntime, c: &mut Course, d: &Delivery, came: bool) -> io::Result<()> {
    c.errors = c.errors.wrapping_add(d.weight_in_error(came));
    let place = c.board.place(d.chip);
    println!(rt;
        "round {}  chip {place} {}  {}{}",
        c.rounds,
        Processors(d.processors),
        d.contents(),
        Errors(d.errors)
    )
}

// A log record.
#[derive(Clone, Copy)]
struct Delivery {
    chip: u32,
    processors: u32,
    errors: u32,
    control: u32,
    word: u32,
    payload: u32,
}

impl Delivery {
    fn of(record: &[u32]) -> Delivery {
        Delivery {
            chip: item(record, 0),
            processors: item(record, 1),
            errors: item(record, 2),
            control: item(record, 3),
            word: item(record, 4),
            payload: item(record, 5),
        }
    }

    // A packet of nine bytes has a payload: bit 1 of its control byte says so, unless its length is in error.
    fn contents(&self) -> Contents {
        let wrong = self.errors & 4 != 0;
        let nine = (carries_of(self.control) == 1) != wrong;
        Contents {
            control: self.control,
            word: self.word,
            payload: if nine { Some(self.payload) } else { None },
        }
    }

    // A packet in error ends with the weight that it had: two if it was in flight marked 01.
    fn weight_in_error(&self, came: bool) -> u64 {
        if self.errors == 0 {
            0
        } else if came && is_marked(self.control) && mark_of(self.control) == 1 {
            2
        } else {
            1
        }
    }
}

// Processors by their bits.
#[derive(Clone, Copy)]
pub struct Processors(pub u32);

impl fmt::Display for Processors {
    fn fmt<W: fmt::Write>(&self, f: &mut fmt::Formatter<W>) -> fmt::Result {
        for k in 0..20u32 {
            if (self.0 >> k) & 1 == 1 {
                write!(f, " p{k}")?;
            }
        }
        Ok(())
    }
}

// The errors of a packet, by their flags: nothing where there is none.
#[derive(Clone, Copy)]
pub struct Errors(pub u32);

const NAMES: [(u32, &str); 4] = [
    (1, "parity even"),
    (2, "too old"),
    (4, "wrong length"),
    (8, "bad local"),
];

impl fmt::Display for Errors {
    fn fmt<W: fmt::Write>(&self, f: &mut fmt::Formatter<W>) -> fmt::Result {
        let mut before = "  error: ";
        for (flag, name) in NAMES {
            if self.0 & flag != 0 {
                write!(f, "{before}{name}")?;
                before = ", ";
            }
        }
        Ok(())
    }
}
