// The one-router call: it takes anything, refuses or makes one pass, and shows all of it.
#![tactic(auto)]

pub mod call;
mod showing;

use kept::{Counters, Registers};
use packet::Packet;

// What the one-router call answers.
#[repr(C)]
#[derive(Clone, Copy)]
pub struct Pass {
    pub refusal: u32,
    pub errors: u32,
    pub wanted: u32,
    pub sent: u32,
    pub dropped: u32,
    pub leg_sent: u32,
    pub leg_dropped: u32,
    pub processors: u32,
    pub delivered: Packet,
    pub packets: [Packet; 6],
    pub leg: Packet,
    pub registers: Registers,
    pub counters: Counters,
    pub place: u32,
}
