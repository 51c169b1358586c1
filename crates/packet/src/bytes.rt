// A packet from bytes, and back to bytes.
ghost use Rattle.std.specs.Prelude.{◌≡◌, length, IfOk, ◌+◌, ◌/◌, ◌%◌, ◌≤◌, ◌<◌};
ghost use Rattle.packet.specs.Bytes.{word_at, packet_at, as_taken, taken_of, packed_as, packed_bytes};
ghost use Rattle.packet.specs.Refusal.{first_of, packet_refusals};
ghost use Rattle.packet.specs.Refused.{told};

use super::control::is_direct;
use super::refused::Refused;
use super::{Packed, Packet};

// The packet that stands in the bytes: 2 for a length other than 5 or 9.
pub fn take(s: &[u8]) -> Result<Packet, Refused>
    ensures { as_taken result ≡ taken_of s.now }
{
    match s.len() {
        5 => Ok(five(s)),
        9 => Ok(nine(s)),
        _ => Err(Refused::Length),
    }
}

// The packet's bytes again.
pub fn bytes_of(p: Packet) -> Packed
    ensures { result ≡ packed_bytes p }
{
    if p.nine == 0 {
        packed(p, 5, 0)
    } else {
        packed(p, 9, p.payload)
    }
}

// The packet in bytes, where it may pass: 2 length, 4 NN with T = 1.
pub fn packet_to_pass(bytes: &[u8]) -> Result<Packet, Refused>
    ensures refusal { told result ≡ first_of (packet_refusals bytes.now) }
    ensures packet { IfOk result (λ p. p ≡ packet_at bytes.now) }
{
    let p = take(bytes)?;
    if is_direct(p.control) {
        return Err(Refused::Direct);
    }
    Ok(p)
}

fn word_at(s: &[u8], at: usize) -> u32
    requires { at + 4 ≤ length s.now }
    ensures { result ≡ word_at s.now at }
{
    u32::from_be_bytes([s[at], s[at + 1], s[at + 2], s[at + 3]])
}

// Five bytes and nine are two literals: one for both would take all that differs as parameters.
fn five(s: &[u8]) -> Packet
    requires { length s.now ≡ 5 }
    ensures { result ≡ packet_at s.now }
{
    Packet {
        control: u32::from(s[0]),
        nine: 0,
        word: word_at(s, 1),
        payload: 0,
    }
}

fn nine(s: &[u8]) -> Packet
    requires { length s.now ≡ 9 }
    ensures { result ≡ packet_at s.now }
{
    Packet {
        control: u32::from(s[0]),
        nine: 1,
        word: word_at(s, 1),
        payload: word_at(s, 5),
    }
}

// The packet's nine places.
fn packed(p: Packet, length: u32, payload: u32) -> Packed
    ensures { result ≡ packed_as p length payload }
{
    let mut bytes = [0; 9];
    bytes[0] = (p.control % 256) as u8;
    bytes[1..5].copy_from_slice(&p.word.to_be_bytes());
    bytes[5..].copy_from_slice(&payload.to_be_bytes());
    Packed {
        refusal: 0,
        length,
        bytes,
    }
}
