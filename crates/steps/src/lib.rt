// The steps of one pass: errors and stamping, the wanted set, the second leg, detours and drops.
#![tactic(auto)]

pub mod deciding;
mod detour;
pub mod errors;
pub mod wants;

use packet::Packet;

// What holds of a chip and its surroundings during a pass.
#[derive(Clone, Copy)]
pub struct Setting {
    pub width: u32,
    pub height: u32,
    pub monitor: u32,
    pub phase: u32,
    pub ready: u32,
}

// The wanted set of a packet, and whether a local MC packet found no row: 1, which `counts_of` adds to a count as it stands, else 0.
#[derive(Clone, Copy)]
pub struct Wanted {
    pub set: u32,
    pub missed: u32,
}

// What a pass does: where the packet came from, the errors found, the packet after stamping, the wanted set, whether a local packet found
// no row, the links that send the packet and those of them that carry a detour, the links dropped for, the second leg's link as a set,
// where it is sent and where it is dropped, and the phase. Source and phase stand apart for speed (docs/DECISIONS.md).
#[derive(Clone, Copy, Default)]
pub struct Outcome {
    pub source: u32,
    pub errors: u32,
    pub packet: Packet,
    pub wanted: u32,
    pub missed: u32,
    pub sent: u32,
    pub carried: u32,
    pub dropped: u32,
    pub leg_sent: u32,
    pub leg_dropped: u32,
    pub phase: u32,
}
