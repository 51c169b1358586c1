// Calls as a trace keeps them: those that are accepted are written there.
use super::play::Play;
use packet::bytes::bytes_of;
use packet::{Packed, Packet};
use records::Call;
use records::kinds::Kind;
use records::writing::write_record;
use script::cells::between;
use std::fs::File;
use std::io;
use std::io::Write;

// A record is 15 bytes at the most.
const ROOM: usize = 16;

impl<'a> Play<'a> {
    // Keeps a call that was accepted, where the run keeps a trace.
    pub fn keep(&mut self, call: Call) {
        if let Some(to) = &mut self.trace {
            if let Err(e) = written(to, call) {
                self.failure = Some(e);
            }
        }
    }
}

// Where the record itself is refused, the system has no error: its number is 0.
fn written(to: &mut File, call: Call) -> io::Result<()> {
    let mut room = [0u8; ROOM];
    let w = write_record(&mut room, call);
    if w.refusal != 0 {
        return Err(io::Error::from_raw_os_error(0));
    }
    to.write_all(between(&room, 0, w.length))
}

pub fn injection(chip: u32, packet: Packet) -> Call {
    let Packed { length, bytes, .. } = bytes_of(packet);
    Call {
        chip,
        length,
        bytes,
        ..call_of(Kind::Injection)
    }
}

pub fn link_change(chip: u32, link: u32, up: bool) -> Call {
    Call {
        chip,
        link,
        up: u32::from(up),
        ..call_of(Kind::LinkChange)
    }
}

pub fn registers_read(chip: u32) -> Call {
    Call {
        chip,
        ..call_of(Kind::Registers)
    }
}

// A call of a kind, with 0 for all else.
pub fn call_of(kind: Kind) -> Call {
    Call {
        kind: kind as u32,
        chip: 0,
        link: 0,
        up: 0,
        length: 0,
        bytes: [0; 9],
    }
}
