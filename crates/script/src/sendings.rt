// The statements that send a packet: a spike, a fixed-route packet, a P2P packet, an NN packet, and bytes as they are.
use super::complaints::{Wanted, Wrong};
use super::names::code_named;
use super::numbers::digit_of;
use super::parts::Place;
use super::statements::{Said, Statement};
use super::words::Words;
use packet::Packet;
use packet::control::stamp_of;
use packet::parity::with_stamp;

// The control bytes of the types, mark 00, stamp 0.
const SPIKE: u32 = 0;

const P2P: u32 = 64;

const NN: u32 = 128;

const FIXED: u32 = 192;

// spike X Y KEY [payload N]
pub fn spike(words: Words<'_>) -> Said<'_> {
    with_key(words, SPIKE)
}

// fixed X Y KEY [payload N]: the key is carried and decides nothing.
pub fn fixed(words: Words<'_>) -> Said<'_> {
    with_key(words, FIXED)
}

fn with_key(mut words: Words<'_>, control: u32) -> Said<'_> {
    let place = words.place()?;
    let key = words.number()?;
    let payload = words.payload(Wanted::Payload)?;
    Ok(sent(place, control, key, payload))
}

// p2p X Y DX DY [payload N]: the source ID is that of the chip, which is named by x and y here.
pub fn p2p(mut words: Words<'_>) -> Said<'_> {
    let first = words.ahead();
    let place = words.place()?;
    let Place::At { x, y } = place else {
        return Err(Wanted::Coordinate.at(first));
    };
    let to_x = words.coordinate()?;
    let to_y = words.coordinate()?;
    let payload = words.payload(Wanted::Payload)?;
    Ok(sent(place, P2P, (id(x, y) << 16) | id(to_x, to_y), payload))
}

// nn X Y LINK|all|monitor [word N] [payload N]
pub fn nn(mut words: Words<'_>) -> Said<'_> {
    let place = words.place()?;
    let control = NN | ((words.neighbour()? & 7) << 2);
    let (word, wanted) = match words.option(b"word", Wanted::Number, 0, u32::MAX)? {
        Some(word) => (word, Wanted::Payload),
        None => (0, Wanted::NnMore),
    };
    let payload = words.payload(wanted)?;
    Ok(sent(place, control, word, payload))
}

// packet X Y and five or nine bytes, as they are.
pub fn bytes(mut words: Words<'_>) -> Said<'_> {
    let place = words.place()?;
    let control = words.byte()?;
    let word = words.four_bytes()?;
    let payload = match words.ahead() {
        b"" => None,
        _ => Some(words.four_bytes()?),
    };
    words.end(Wanted::End)?;
    Ok(Statement::Send {
        place,
        packet: packet_of(control, word, payload),
    })
}

// The packet of a spike: MC, mark 00, stamp 0, right in parity.
pub fn spike_of(key: u32) -> Packet {
    with_stamp(packet_of(SPIKE, key, None), 0)
}

// A fixed-route packet, mark 00, stamp 0, right in parity.
pub fn fixed_of(key: u32) -> Packet {
    with_stamp(packet_of(FIXED, key, None), 0)
}

// The statement that sends a packet of a type, right in parity: bit 1 of its control byte says whether it has a payload.
fn sent(place: Place, control: u32, word: u32, payload: Option<u32>) -> Statement<'static> {
    let carries = if payload.is_some() { 2 } else { 0 };
    let made = packet_of(control | carries, word, payload);
    Statement::Send {
        place,
        packet: with_stamp(made, stamp_of(made.control)),
    }
}

fn packet_of(control: u32, word: u32, payload: Option<u32>) -> Packet {
    Packet {
        control,
        nine: if payload.is_some() { 1 } else { 0 },
        word,
        payload: payload.unwrap_or(0),
    }
}

// An ID: x in its high byte, y in its low byte.
fn id(x: u32, y: u32) -> u32 {
    ((x & 255) << 8) | (y & 255)
}

impl<'a> Words<'a> {
    // A payload that may be left out, up to the line's end.
    fn payload(&mut self, wanted: Wanted) -> Result<Option<u32>, Wrong<'a>> {
        let found = self.word();
        match found {
            b"" => Ok(None),
            b"payload" => {
                let payload = self.number()?;
                self.end(Wanted::End)?;
                Ok(Some(payload))
            }
            _ => Err(wanted.at(found)),
        }
    }

    fn neighbour(&mut self) -> Result<u32, Wrong<'a>> {
        let found = self.word();
        code_named(found, b"all", b"monitor").ok_or(Wanted::Neighbour.at(found))
    }

    // Four bytes as a word, the first highest.
    fn four_bytes(&mut self) -> Result<u32, Wrong<'a>> {
        let mut word = 0;
        for _ in 0..4 {
            word = ((word & 0xff_ffff) << 8) | self.byte()?;
        }
        Ok(word)
    }

    // A byte: two hexadecimal digits.
    fn byte(&mut self) -> Result<u32, Wrong<'a>> {
        let found = self.word();
        byte_of(found).ok_or(Wanted::Byte.at(found))
    }
}

fn byte_of(w: &[u8]) -> Option<u32> {
    match w {
        [high, low] => Some((digit_of(*high)? << 4) | digit_of(*low)?),
        _ => None,
    }
}
