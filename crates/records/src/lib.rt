// Records of a kept trace: calls on a mesh as bytes, written and read.
#![tactic(auto)]

pub mod kinds;
pub mod reading;
pub mod writing;

// One call as a trace keeps it. Kinds: 1 injection, 2 round, 3 link change, 4 read of error registers. `length` and `bytes` are the
// packet's. A field that the kind lacks is 0, and so are bytes past `length`.
#[repr(C)]
#[derive(Clone, Copy)]
pub struct Call {
    pub kind: u32,
    pub chip: u32,
    pub link: u32,
    pub up: u32,
    pub length: u32,
    pub bytes: [u8; 9],
}

// What writing a record answers: its bytes, the two of its length among them.
#[repr(C)]
#[derive(Clone, Copy)]
pub struct Written {
    pub refusal: u32,
    pub length: usize,
}

// What reading a record answers.
#[repr(C)]
#[derive(Clone, Copy)]
pub struct Record {
    pub refusal: u32,
    pub length: usize,
    pub call: Call,
}
