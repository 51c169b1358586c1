// Reading a packet into its fields, and packing fields.
ghost use Rattle.std.specs.Prelude.{◌≡◌, true, ◌⊎◌};
ghost use Rattle.packet.specs.Fields.{end_fields, marked_fields, p2p_fields, nn_fields, fields_of, no_fields, read_of};
ghost use Rattle.packet.specs.Packing.{marked_in_range, p2p_in_range, nn_in_range, end_in_range, not_packed, packed_of};

use super::bytes::{bytes_of, take};
use super::control::{
    beside, carries_of, control_byte, direct_of, kind_of, mark_of, parity_of, route_of,
    sequence_of, stamp_of,
};
use super::kind::Kind;
use super::{Fields, FieldsRead, Packed, Packet};

// The fields of a packet in bytes: 2 for a length other than 5 or 9.
pub fn read(s: &[u8]) -> FieldsRead
    ensures { result ≡ read_of s.now }
{
    match take(s) {
        Ok(packet) => FieldsRead {
            refusal: 0,
            fields: fields_of(packet),
        },
        Err(refused) => FieldsRead {
            refusal: u32::from(refused),
            fields: no_fields(),
        },
    }
}

// The bytes of a packet of fields: 6 for a field out of range.
pub fn pack(f: Fields) -> Packed
    ensures { result ≡ packed_of f }
{
    if !end_in_range(f) {
        return not_packed(6);
    }
    match Kind::try_from(f.kind) {
        Ok(Kind::Mc | Kind::Fixed) => marked_packed(f),
        Ok(Kind::P2p) => p2p_packed(f),
        Ok(Kind::Nn) => nn_packed(f),
        Err(refused) => not_packed(u32::from(refused)),
    }
}

pub fn fields_of(p: Packet) -> Fields
    ensures { result ≡ fields_of p }
{
    let kind = kind_of(p.control);
    match Kind::try_from(kind) {
        Ok(Kind::P2p) => p2p_fields(p),
        Ok(Kind::Nn) => nn_fields(p),
        _ => marked_fields(kind, p),
    }
}

fn marked_fields(kind: u32, p: Packet) -> Fields
    ensures { result ≡ marked_fields kind p }
{
    Fields {
        kind,
        mark: mark_of(p.control),
        stamp: stamp_of(p.control),
        word: p.word,
        ..end_fields(p)
    }
}

fn p2p_fields(p: Packet) -> Fields
    ensures { result ≡ p2p_fields p }
{
    Fields {
        kind: u32::from(Kind::P2p),
        sequence: sequence_of(p.control),
        stamp: stamp_of(p.control),
        source: p.word / 65536,
        destination: p.word % 65536,
        ..end_fields(p)
    }
}

fn nn_fields(p: Packet) -> Fields
    ensures { result ≡ nn_fields p }
{
    Fields {
        kind: u32::from(Kind::Nn),
        direct: direct_of(p.control),
        route: route_of(p.control),
        word: p.word,
        ..end_fields(p)
    }
}

// The fields that every type has, and 0 at all others.
fn end_fields(p: Packet) -> Fields
    ensures { result ≡ end_fields p }
{
    Fields {
        carries: carries_of(p.control),
        parity: parity_of(p.control),
        nine: p.nine,
        payload: p.payload,
        ..no_fields()
    }
}

fn no_fields() -> Fields
    ensures { result ≡ no_fields }
{
    Fields::default()
}

fn marked_in_range(f: Fields) -> bool
    ensures { result ≡ marked_in_range f }
{
    (f.mark < 4)
        & (f.sequence == 0)
        & (f.stamp < 4)
        & (f.direct == 0)
        & (f.route == 0)
        & (f.source == 0)
        & (f.destination == 0)
}

fn p2p_in_range(f: Fields) -> bool
    ensures { result ≡ p2p_in_range f }
{
    (f.mark == 0)
        & (f.sequence < 4)
        & (f.stamp < 4)
        & (f.direct == 0)
        & (f.route == 0)
        & (f.word == 0)
        & (f.source < 65536)
        & (f.destination < 65536)
}

fn nn_in_range(f: Fields) -> bool
    ensures { result ≡ nn_in_range f }
{
    (f.mark == 0)
        & (f.sequence == 0)
        & (f.stamp == 0)
        & (f.direct < 2)
        & (f.route < 8)
        & (f.source == 0)
        & (f.destination == 0)
}

fn end_in_range(f: Fields) -> bool
    ensures { result ≡ end_in_range f }
{
    (f.carries < 2) & (f.parity < 2) & (f.nine < 2) & ((f.nine == 1) | (f.payload == 0))
}

// A refusal: its number, and zeros elsewhere.
fn not_packed(refusal: u32) -> Packed
    ensures { result ≡ not_packed refusal }
{
    Packed {
        refusal,
        ..Packed::default()
    }
}

fn marked_packed(f: Fields) -> Packed
    requires { ((f.kind ≡ 0) ⊎ (f.kind ≡ 3)) × (end_in_range f ≡ true) }
    ensures { result ≡ packed_of f }
{
    if !marked_in_range(f) {
        return not_packed(6);
    }
    let four = beside(f.mark, f.stamp, 2);
    bytes_of(packet_with(f, control_byte(f.kind, four, f.carries, f.parity), f.word))
}

fn p2p_packed(f: Fields) -> Packed
    requires { (f.kind ≡ 1) × (end_in_range f ≡ true) }
    ensures { result ≡ packed_of f }
{
    if !p2p_in_range(f) {
        return not_packed(6);
    }
    let four = beside(f.sequence, f.stamp, 2);
    let word = f.source * 65536 + f.destination;
    bytes_of(packet_with(f, control_byte(1, four, f.carries, f.parity), word))
}

fn nn_packed(f: Fields) -> Packed
    requires { (f.kind ≡ 2) × (end_in_range f ≡ true) }
    ensures { result ≡ packed_of f }
{
    if !nn_in_range(f) {
        return not_packed(6);
    }
    let four = beside(f.direct, f.route, 3);
    bytes_of(packet_with(f, control_byte(2, four, f.carries, f.parity), f.word))
}

// The packet of a control byte, a word, and the fields that every type has.
fn packet_with(f: Fields, control: u32, word: u32) -> Packet
    ensures { result ≡ record { control = control; nine = f.nine; word = word; payload = f.payload } }
{
    Packet {
        control,
        nine: f.nine,
        word,
        payload: f.payload,
    }
}
