// Reading the record at the start of a trace.
ghost use Rattle.std.specs.Prelude.{◌≡◌, true, ◌⊎◌, length, ◌≤◌, ◌<◌, slice_index};
ghost use Rattle.packet.specs.Refusal.{first_of};
ghost use Rattle.packet.specs.Refused.{told};
ghost use Rattle.records.specs.Kinds.{number_of, Fine, KindRead};
ghost use Rattle.records.specs.Records.{body_length, body_fine, Readable, read_refusals, chip_at, call_of, injection_at, call_at, record_read};

use super::kinds::Kind;
use super::{Call, Record};
use packet::refused::Refused;

// The record at the start. Refusals, the first that applies: 12 cut short, 13 an empty body or another version, 14 kind, body length or
// link state.
pub fn read_record(trace: &[u8]) -> Record
    ensures { result ≡ record_read trace.now }
{
    match kind_read(trace) {
        Ok(kind) => Record {
            refusal: 0,
            length: 2 + body_length(trace),
            call: call_at(trace, kind),
        },
        Err(refused) => Record {
            refusal: u32::from(refused),
            length: 0,
            call: call_of(0, 0, 0, 0),
        },
    }
}

// The kind of the record.
fn kind_read(trace: &[u8]) -> Result<Kind, Refused>
    ensures { KindRead trace.now result }
{
    if trace.len() < 2 {
        return Err(Refused::CutShort);
    }
    let body = body_length(trace);
    if trace.len() < 2 + body {
        return Err(Refused::CutShort);
    }
    if body == 0 {
        return Err(Refused::Version);
    }
    if trace[2] != 1 {
        return Err(Refused::Version);
    }
    kind_of_body(trace)
}

// The kind, where body length and link state go with it.
fn kind_of_body(trace: &[u8]) -> Result<Kind, Refused>
    requires { Readable trace.now }
    ensures { Fine trace.now result }
{
    if body_length(trace) < 2 {
        return Err(Refused::Record);
    }
    let kind = Kind::try_from(u32::from(trace[3]))?;
    if body_fine(trace, kind) {
        Ok(kind)
    } else {
        Err(Refused::Record)
    }
}

fn body_fine(trace: &[u8], kind: Kind) -> bool
    requires { Readable trace.now × (number_of kind ≡ slice_index trace.now 3) }
    ensures { result ≡ body_fine trace.now }
{
    let body = body_length(trace);
    match kind {
        Kind::Injection => (body == 9) | (body == 13),
        Kind::Round => body == 2,
        Kind::LinkChange => (body == 6) && (trace[7] <= 1),
        Kind::Registers => body == 4,
    }
}

fn body_length(trace: &[u8]) -> usize
    requires { 2 ≤ length trace.now }
    ensures { (result ≡ body_length trace.now) × (result < 65536) }
{
    usize::from(trace[0]) * 256 + usize::from(trace[1])
}

// The call of a record that was not refused.
fn call_at(trace: &[u8], kind: Kind) -> Call
    requires { Readable trace.now × ((body_fine trace.now ≡ true) × (number_of kind ≡ slice_index trace.now 3)) }
    ensures { result ≡ call_at trace.now }
{
    match kind {
        Kind::Injection => injection_at(trace),
        Kind::Round => call_of(2, 0, 0, 0),
        Kind::LinkChange => call_of(3, chip_at(trace), u32::from(trace[6]), u32::from(trace[7])),
        Kind::Registers => call_of(4, chip_at(trace), 0, 0),
    }
}

// A call without a packet.
fn call_of(kind: u32, chip: u32, link: u32, up: u32) -> Call
    ensures { result ≡ call_of kind chip link up }
{
    Call {
        kind,
        chip,
        link,
        up,
        length: 0,
        bytes: [0; 9],
    }
}

fn injection_at(trace: &[u8]) -> Call
    requires { Readable trace.now × ((body_length trace.now ≡ 9) ⊎ (body_length trace.now ≡ 13)) }
    ensures { result ≡ injection_at trace.now }
{
    let call = call_of(1, chip_at(trace), 0, 0);
    if body_length(trace) == 13 {
        Call {
            length: 9,
            bytes: [
                trace[6], trace[7], trace[8], trace[9], trace[10], trace[11], trace[12], trace[13],
                trace[14],
            ],
            ..call
        }
    } else {
        Call {
            length: 5,
            bytes: [
                trace[6], trace[7], trace[8], trace[9], trace[10], 0, 0, 0, 0,
            ],
            ..call
        }
    }
}

fn chip_at(trace: &[u8]) -> u32
    requires { 6 ≤ length trace.now }
    ensures { result ≡ chip_at trace.now }
{
    u32::from(trace[4]) * 256 + u32::from(trace[5])
}
