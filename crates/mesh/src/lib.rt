// What a mesh is, what happens in it and what its calls answer: definitions and their laws, the structs of the answers, and the tables that are lent. No call is made here.
#![tactic(auto)]

pub mod lent;

use kept::Registers;
use packet::Packet;

// What an injection and a round answer; the place is that of a refusal from 15 to 18.
#[repr(C)]
#[derive(Clone, Copy)]
pub struct Added {
    pub refusal: u32,
    pub added: u32,
    pub place: u32,
}

// What reading a chip's registers answers.
#[repr(C)]
#[derive(Clone, Copy)]
pub struct RegistersRead {
    pub refusal: u32,
    pub registers: Registers,
}

// What reading one of a chip's counters answers.
#[repr(C)]
#[derive(Clone, Copy)]
pub struct CountRead {
    pub refusal: u32,
    pub count: u32,
}

// What looking at a mesh answers.
#[repr(C)]
#[derive(Clone, Copy)]
pub struct MeshRead {
    pub refusal: u32,
    pub width: u32,
    pub height: u32,
    pub rounds_per_phase: u32,
    pub monitor: u32,
    pub phase: u32,
    pub rounds_in_phase: u32,
    pub in_flight: u32,
}

// What looking at a directed link answers.
#[repr(C)]
#[derive(Clone, Copy)]
pub struct LinkRead {
    pub refusal: u32,
    pub up: u32,
    pub held: u32,
    pub ready: u32,
}

// What looking at a packet in flight answers.
#[repr(C)]
#[derive(Clone, Copy)]
pub struct FlightRead {
    pub refusal: u32,
    pub packet: Packet,
}
