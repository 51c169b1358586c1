// Whether a buffer holds a mesh.
ghost use Rattle.std.specs.Prelude.{◌≡◌, ◌+◌, ◌*◌, ◌≤◌, length, drop};
ghost use Rattle.mesh.specs.Sound.{packet_fine, all_zeros, registers_fine};
ghost use Rattle.buffer.specs.Holding.{places_fine, link_fine, chip_fine, chips_fine, head_fine, holds_mesh};
ghost use Rattle.links.specs.Offsets.{header_long, places_at, place_long, link_long, chip_long};

use super::opening::{rounds_fine, words_for};
use super::registers::registers_at;
use kept::Registers;
use kept::keeping::{MOST_UNITS, more_of};
use links::link::packet_at;
use links::offsets::{
    CHIP, ELAPSED, HEADER, HEIGHT, HELD, LINK_0, LINK_1, LINK_2, LINK_3, LINK_4, LINK_5, MONITOR,
    PHASE, PLACE, PLACES_AT, REGISTERS, ROUNDS, STATE, WIDTH,
};
use packet::Packet;
use packet::control::is_direct;
use packet::parity::is_odd;
use tables::size::{chips, size_fine};

// Whether the buffer is long enough and every stored number is in range.
pub fn holds(mesh: &[u32]) -> bool
    ensures { result ≡ holds_mesh mesh.now }
{
    if mesh.len() < HEADER {
        return false;
    }
    if !head_fine(mesh) {
        return false;
    }
    if mesh.len() < words_for(mesh[WIDTH], mesh[HEIGHT]) {
        return false;
    }
    chips_fine(mesh, chips(mesh[WIDTH], mesh[HEIGHT]))
}

fn packet_fine(p: Packet) -> bool
    ensures { result ≡ packet_fine p }
{
    (p.control < 256) & !is_direct(p.control) & is_odd(p) & ((p.nine == 1) | (p.payload == 0))
}

// The first packets of a link's places.
fn places_fine(words: &[u32], count: usize) -> bool
    requires { places_at + count * place_long ≤ length words.now }
    ensures { result ≡ places_fine count (drop places_at words.now) }
{
    for i in 0..count {
        if !packet_fine(packet_at(words, PLACES_AT + i * PLACE)) {
            return false;
        }
    }
    true
}

fn link_fine(words: &[u32]) -> bool
    requires { length words.now ≡ link_long }
    ensures { result ≡ link_fine words.now }
{
    if 1 < words[STATE] {
        return false;
    }
    if 8 < words[HELD] {
        return false;
    }
    places_fine(words, words[HELD] as usize)
}

// Registers that keep no unit, as most do, are told by their zeros.
fn registers_fine(r: Registers) -> bool
    ensures { result ≡ registers_fine r }
{
    if r.units == 0 {
        return all_zeros(r);
    }
    (r.control < 256)
        & (r.link < 6)
        & (r.leg <= 1)
        & (r.more == more_of(r.units))
        & ((r.source < 6) | (r.source == 7))
        & (r.phase <= 3)
        & (r.units <= MOST_UNITS)
}

// Whether each number but that of the units is 0.
fn all_zeros(r: Registers) -> bool
    ensures { result ≡ all_zeros r }
{
    (r.control == 0)
        & (r.word == 0)
        & (r.payload == 0)
        & (r.link == 0)
        & (r.leg == 0)
        & (r.more == 0)
        & (r.source == 0)
        & (r.phase == 0)
}

fn chip_fine(chip: &[u32]) -> bool
    requires { length chip.now ≡ chip_long }
    ensures { result ≡ chip_fine chip.now }
{
    registers_fine(registers_at(&chip[0..REGISTERS]))
        & link_fine(&chip[LINK_0..LINK_1])
        & link_fine(&chip[LINK_1..LINK_2])
        & link_fine(&chip[LINK_2..LINK_3])
        & link_fine(&chip[LINK_3..LINK_4])
        & link_fine(&chip[LINK_4..LINK_5])
        & link_fine(&chip[LINK_5..CHIP])
}

fn chips_fine(mesh: &[u32], count: usize) -> bool
    requires { header_long + count * chip_long ≤ length mesh.now }
    ensures { result ≡ chips_fine 0 count mesh.now }
{
    for i in 0..count {
        let at = HEADER + i * CHIP;
        if !chip_fine(&mesh[at..at + CHIP]) {
            return false;
        }
    }
    true
}

fn head_fine(mesh: &[u32]) -> bool
    requires { header_long ≤ length mesh.now }
    ensures { result ≡ head_fine mesh.now }
{
    size_fine(mesh[WIDTH], mesh[HEIGHT])
        & rounds_fine(mesh[ROUNDS])
        & (mesh[MONITOR] <= 19)
        & (mesh[PHASE] <= 3)
        & (mesh[ELAPSED] < mesh[ROUNDS])
}
