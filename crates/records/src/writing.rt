// Writing the record of a call at the start of the room that is lent.
ghost use Rattle.std.specs.Prelude.{◌≡◌, ◌==◌, true, length, take, drop};
ghost use Rattle.std.specs.List.{list_all};
ghost use Rattle.records.specs.Kinds.{number_of, Keeps, WrittenOn};
ghost use Rattle.records.specs.Records.{fields_fit, keepable, record_of, written_of, written_on};

use super::kinds::Kind;
use super::{Call, Written};
use packet::refused::Refused;

// Writes the record. Refusals, the first that applies: 14 a call that no record keeps as it is, 27 no room; then nothing is written.
pub fn write_record(trace: &mut [u8], call: Call) -> Written
    ensures value { result ≡ written_of (length trace.old) call }
    ensures trace_after { trace.new ≡ written_on call trace.old }
{
    match write(trace, call) {
        Ok(length) => Written { refusal: 0, length },
        Err(refused) => Written {
            refusal: u32::from(refused),
            length: 0,
        },
    }
}

// Answers how long the record is.
fn write(trace: &mut [u8], call: Call) -> Result<usize, Refused>
    ensures { WrittenOn call trace.old trace.new result }
{
    let kind = kind_kept(call)?;
    let size = record_length(kind, call);
    if trace.len() < size {
        return Err(Refused::RecordRoom);
    }
    let bytes = record_bytes(kind, call);
    trace[..size].copy_from_slice(&bytes[..size]);
    Ok(size)
}

// The kind of a call that a record keeps as it is.
#[tactic(auto, using(crate::proofs::NoKind::zeros_all))]
fn kind_kept(call: Call) -> Result<Kind, Refused>
    ensures { Keeps call result }
{
    let kind = Kind::try_from(call.kind)?;
    if fields_fit(kind, call) & zeros_past(call.length, call.bytes) {
        Ok(kind)
    } else {
        Err(Refused::Record)
    }
}

fn fields_fit(kind: Kind, c: Call) -> bool
    requires { number_of kind ≡ c.kind }
    ensures { result ≡ fields_fit c }
{
    match kind {
        Kind::Injection => (c.chip < 65536)
            & (c.link == 0)
            & (c.up == 0)
            & ((c.length == 5) | (c.length == 9)),
        Kind::Round => (c.chip == 0) & (c.link == 0) & (c.up == 0) & (c.length == 0),
        Kind::LinkChange => (c.chip < 65536) & (c.link < 256) & (c.up <= 1) & (c.length == 0),
        Kind::Registers => (c.chip < 65536) & (c.link == 0) & (c.up == 0) & (c.length == 0),
    }
}

// Whether bytes past a packet are 0.
fn zeros_past(size: u32, bytes: [u8; 9]) -> bool
    ensures { result ≡ list_all (λ b. b == 0) (drop size bytes) }
{
    bytes.iter().skip(size as usize).all(|byte| *byte == 0)
}

fn record_length(kind: Kind, call: Call) -> usize
    requires { (keepable call ≡ true) × (number_of kind ≡ call.kind) }
    ensures { result ≡ length (record_of call) }
{
    match kind {
        Kind::Injection => 6 + (call.length as usize),
        Kind::Round => 4,
        Kind::LinkChange => 8,
        Kind::Registers => 6,
    }
}

// The record's bytes, and some behind them. Behind the chip stand link and state, or a packet.
fn record_bytes(kind: Kind, call: Call) -> [u8; 15]
    requires { (keepable call ≡ true) × (number_of kind ≡ call.kind) }
    ensures { (take (length (record_of call)) result ≡ record_of call) × (length result ≡ 15) }
{
    let b = call.bytes;
    let number = u8::from(kind);
    let high = (call.chip / 256) as u8;
    let low = (call.chip % 256) as u8;
    let body = (record_length(kind, call) - 2) as u8;
    if kind == Kind::LinkChange {
        let link = call.link as u8;
        let up = call.up as u8;
        [0, body, 1, number, high, low, link, up, 0, 0, 0, 0, 0, 0, 0]
    } else {
        [
            0, body, 1, number, high, low, b[0], b[1], b[2], b[3], b[4], b[5], b[6], b[7], b[8],
        ]
    }
}
