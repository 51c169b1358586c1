// The calls that only look.
ghost use Rattle.std.specs.Prelude.{◌≡◌, ◌≤◌, length, slice_index};
ghost use Rattle.packet.specs.Refused.{number_of};
ghost use Rattle.links.specs.Offsets.{held_at, link_long};
ghost use Rattle.links.specs.Words.{link_in};
ghost use Rattle.buffer.specs.Layout.{mesh_of};
ghost use Rattle.buffer.specs.Holding.{holds_mesh};
ghost use Rattle.mesh.specs.Looks.{count_read, mesh_read, link_shown, link_read, no_flight, place_read, flight_read};

use super::flight::in_flight;
use super::holding::holds;
use super::refusing::number_refusal;
use links::link::{is_ready, packet_at};
use links::offsets::{
    CHIP, COUNTERS_AT, ELAPSED, HEADER, HEIGHT, HELD, LINK, LINKS_AT, MONITOR, PHASE, PLACE,
    PLACES_AT, ROUNDS, STATE, WIDTH,
};
use mesh::{CountRead, FlightRead, LinkRead, MeshRead};
use packet::Packet;
use packet::refused::Refused;
use steps::errors::flag_of;
use tables::size::chips;

// One of a chip's ten counters. Refusals, the first that applies: 8 no mesh, 9 chip or counter.
pub fn read_counter(mesh: &[u32], chip: u32, counter: u32) -> CountRead
    ensures { result ≡ count_read (holds_mesh mesh.now) (mesh_of mesh.now) chip counter }
{
    if let Err(refused) = number_refusal(mesh, holds(mesh), chip, counter, 10) {
        return CountRead {
            refusal: u32::from(refused),
            count: 0,
        };
    }
    let at = HEADER + (chip as usize) * CHIP + (COUNTERS_AT + counter as usize);
    CountRead {
        refusal: 0,
        count: mesh[at],
    }
}

// The mesh's size, phase and monitor, and how many packets are in flight: 8 where there is no mesh.
pub fn look_mesh(mesh: &[u32]) -> MeshRead
    ensures { result ≡ mesh_read (holds_mesh mesh.now) (mesh_of mesh.now) }
{
    if !holds(mesh) {
        return MeshRead {
            refusal: u32::from(Refused::NoMesh),
            width: 0,
            height: 0,
            rounds_per_phase: 0,
            monitor: 0,
            phase: 0,
            rounds_in_phase: 0,
            in_flight: 0,
        };
    }
    let all = chips(mesh[WIDTH], mesh[HEIGHT]);
    MeshRead {
        refusal: 0,
        width: mesh[WIDTH],
        height: mesh[HEIGHT],
        rounds_per_phase: mesh[ROUNDS],
        monitor: mesh[MONITOR],
        phase: mesh[PHASE],
        rounds_in_phase: mesh[ELAPSED],
        in_flight: in_flight(mesh, all),
    }
}

// One directed link of a chip: whether it is up, how many packets it holds, whether it is ready. Refusals, the first that
// applies: 8 no mesh, 9 chip or link.
pub fn look_link(mesh: &[u32], chip: u32, link: u32) -> LinkRead
    ensures { result ≡ link_read (holds_mesh mesh.now) (mesh_of mesh.now) chip link }
{
    if let Err(refused) = number_refusal(mesh, holds(mesh), chip, link, 6) {
        return LinkRead {
            refusal: u32::from(refused),
            up: 0,
            held: 0,
            ready: 0,
        };
    }
    let at = HEADER + (chip as usize) * CHIP + (LINKS_AT + (link as usize) * LINK);
    link_shown(&mesh[at..at + LINK])
}

// The packet at a place of a directed link, 0 the oldest. Refusals, the first that applies: 8 no mesh, 9 chip or link, or a place
// where the link holds none.
pub fn look_flight(mesh: &[u32], chip: u32, link: u32, place: u32) -> FlightRead
    ensures { result ≡ flight_read (holds_mesh mesh.now) (mesh_of mesh.now) chip link place }
{
    if let Err(refused) = number_refusal(mesh, holds(mesh), chip, link, 6) {
        return no_flight(refused);
    }
    let at = HEADER + (chip as usize) * CHIP + (LINKS_AT + (link as usize) * LINK);
    look_place(&mesh[at..at + LINK], place)
}

fn link_shown(words: &[u32]) -> LinkRead
    requires { length words.now ≡ link_long }
    ensures { result ≡ link_shown (link_in words.now) }
{
    LinkRead {
        refusal: 0,
        up: flag_of(words[STATE] == 0, 1),
        held: words[HELD],
        ready: flag_of(is_ready(words), 1),
    }
}

fn look_place(words: &[u32], place: u32) -> FlightRead
    requires { (length words.now ≡ link_long) × (slice_index words.now held_at ≤ 8) }
    ensures { result ≡ place_read (link_in words.now) place }
{
    if words[HELD] <= place {
        return no_flight(Refused::NotThere);
    }
    FlightRead {
        refusal: 0,
        packet: packet_at(words, PLACES_AT + (place as usize) * PLACE),
    }
}

fn no_flight(refused: Refused) -> FlightRead
    ensures { result ≡ no_flight (number_of refused) }
{
    FlightRead {
        refusal: u32::from(refused),
        packet: Packet {
            control: 0,
            nine: 0,
            word: 0,
            payload: 0,
        },
    }
}
