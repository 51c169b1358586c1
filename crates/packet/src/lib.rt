// The packet: taken from bytes and given back as bytes, read into fields and packed from them, its parity, and a new
// mark or stamp.
#![tactic(auto)]

pub mod bytes;
pub mod control;
pub mod kind;
pub mod parity;
pub mod reading;
pub mod refused;

// A packet's bytes: control, whether nine bytes are there (1) or five (0), word, and payload, which is 0 for five bytes. The C interface has
// these numbers.
#[repr(C)]
#[derive(Clone, Copy, Default)]
pub struct Packet {
    pub control: u32,
    pub nine: u32,
    pub word: u32,
    pub payload: u32,
}

// A number for every field of every type, 0 where the type lacks it; the type itself is one of them, for the C interface.
#[repr(C)]
#[derive(Clone, Copy, Default)]
pub struct Fields {
    pub kind: u32,
    pub mark: u32,
    pub sequence: u32,
    pub stamp: u32,
    pub direct: u32,
    pub route: u32,
    pub carries: u32,
    pub parity: u32,
    pub nine: u32,
    pub word: u32,
    pub source: u32,
    pub destination: u32,
    pub payload: u32,
}

// What reading answers, in the form of the C interface.
#[repr(C)]
#[derive(Clone, Copy)]
pub struct FieldsRead {
    pub refusal: u32,
    pub fields: Fields,
}

// What packing answers, in the form of the C interface: bytes past the length are 0.
#[repr(C)]
#[derive(Clone, Copy, Default)]
pub struct Packed {
    pub refusal: u32,
    pub length: u32,
    pub bytes: [u8; 9],
}
