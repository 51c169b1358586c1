// What is told of chips, packets and refusals, in words.
use packet::control::kind_of;
use packet::kind::Kind;
use packet::refused::Refused;
use script::parts::Place;
use std::fmt;

// A packet: its type, its key, IDs or word, and its payload if it has one.
#[derive(Clone, Copy)]
pub struct Contents {
    pub control: u32,
    pub word: u32,
    pub payload: Option<u32>,
}

impl fmt::Display for Contents {
    fn fmt<W: fmt::Write>(&self, f: &mut fmt::Formatter<W>) -> fmt::Result {
        let word = self.word;
        match Kind::try_from(kind_of(self.control)) {
            Ok(Kind::Mc) => write!(f, "mc key 0x{word:08x}")?,
            Ok(Kind::P2p) => write!(f, "p2p from {} to {}", id(word >> 16), id(word))?,
            Ok(Kind::Nn) => write!(f, "nn word 0x{word:08x}")?,
            Ok(Kind::Fixed) | Err(_) => write!(f, "fixed key 0x{word:08x}")?,
        }
        match self.payload {
            Some(payload) => write!(f, " payload 0x{payload:08x}"),
            None => Ok(()),
        }
    }
}

// The chip of an ID: x in its high byte, y in its low byte.
fn id(half: u32) -> Place {
    Place::At {
        x: (half >> 8) & 255,
        y: half & 255,
    }
}

// A call's refusal, by its number in the rules: the structs that calls answer have the number, since C reads them too.
#[derive(Clone, Copy)]
pub struct Refusal(pub u32);

impl From<Refused> for Refusal {
    fn from(refused: Refused) -> Refusal {
        Refusal(u32::from(refused))
    }
}

impl fmt::Display for Refusal {
    fn fmt<W: fmt::Write>(&self, f: &mut fmt::Formatter<W>) -> fmt::Result {
        write!(f, "{}: {}", self.0, reason(self.0))
    }
}

// What a call answers beside its number, where that is no refusal.
pub fn unless_refused<T: Copy>(number: u32, value: T) -> Result<T, Refusal> {
    if number == 0 {
        Ok(value)
    } else {
        Err(Refusal(number))
    }
}

fn reason(number: u32) -> &'static str {
    match number {
        2 => "the packet's length is not 5 or 9",
        4 => "an NN packet with T = 1",
        6 => "a monitor above 19",
        7 => "width, height or rounds in a phase out of range",
        8 => "no mesh in the buffer",
        9 => "no such chip, link or counter",
        10 => "the log is too short",
        11 => "codes of wrong number, or a code above 7",
        12 => "the record is cut short",
        13 => "the record's version is not 1",
        14 => "the record's kind, length or link state is none",
        27 => "no room for the record",
        _ => "of another kind",
    }
}
