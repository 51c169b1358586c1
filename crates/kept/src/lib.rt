// What a chip keeps of its passes: the error registers and the ten counters. The units that the account sums are defined beside them.
#![tactic(auto)]

pub mod counting;
pub mod keeping;
pub mod lent;

// The first dropped unit since the registers were last read, where it came in and in which phase, how many were dropped since then, stopping at 65,535, and whether that is
// more than one. Empty ones are all zeros.
#[repr(C)]
#[derive(Clone, Copy, Default)]
pub struct Registers {
    pub control: u32,
    pub word: u32,
    pub payload: u32,
    pub link: u32,
    pub leg: u32,
    pub more: u32,
    pub source: u32,
    pub phase: u32,
    pub units: u32,
}

// Passes, parity, age, length, bad local, sent, delivered, dropped, swallowed, local misses.
#[repr(C)]
#[derive(Clone, Copy, Default)]
pub struct Counters {
    pub count: [u32; 10],
}
