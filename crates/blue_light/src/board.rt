// The mesh of the story: 3 by 3 chips. Chip 0 sends key 1 by link 0, chip 1 has no row and lets it go straight on, chip 2
// hands it to processor 1. The link that is watched, and taken down, is link 0 of chip 1.
ghost use Rattle.std.specs.Prelude.{◌≡◌, length};
ghost use Rattle.packet.specs.Control.{mark_of};
ghost use Rattle.mesh.specs.Calls.{added_of};
ghost use Rattle.mesh.specs.Looks.{mesh_read, link_read, flight_read};
ghost use Rattle.buffer.specs.Layout.{mesh_of};
ghost use Rattle.buffer.specs.Holding.{holds_mesh};
ghost use Rattle.buffer.specs.Leaving.{inject_left, round_left};
ghost use Rattle.blue_light.specs.Board.{opened, lent, packet, sum_of, totals};

use buffer::changing::set_link;
use buffer::looking::{look_flight, look_link, look_mesh, read_counter};
use buffer::moving::{inject, round};
use buffer::opening::open;
use mesh::LinkRead;
use mesh::lent::Tables;
use packet::control::mark_of;

// No mesh needs more than 4,096 words a chip and 1,024 besides.
pub const WORDS: usize = 37888;

pub const CHIPS: u32 = 9;

// No point-to-point packet is sent: every code is 6, nowhere.
const CODES: [u8; 81] = [6; 81];

// Nor is a fixed-route packet.
const FIXED: [u32; 9] = [0; 9];

// Key 1 and every bit of it: at chip 0 to link 0, route bit 0; at chip 2 to processor 1, route bit 7.
const ROWS: [u32; 6] = [1, 4294967295, 1, 1, 4294967295, 128];

const STARTS: [u32; 10] = [0, 1, 1, 2, 2, 2, 2, 2, 2, 2];

const SENT: u32 = 5;

const DELIVERED: u32 = 6;

const DROPPED: u32 = 7;

// What all chips together counted.
#[derive(Clone, Copy)]
pub struct Totals {
    pub sent: u32,
    pub delivered: u32,
    pub dropped: u32,
}

pub fn opened() -> [u32; WORDS]
    ensures { result ≡ opened }
{
    let mut mesh = [0u32; WORDS];
    let _ = open(&mut mesh, 3, 3, 100, 0);
    mesh
}

// Sends key 1 from chip 0, and answers how many records the log has of it.
pub fn send(mesh: &mut [u32; WORDS], log: &mut [u32; 6]) -> u32
    ensures { result ≡ (added_of (inject_left mesh.old lent (length log.old) 0 packet)).added }
{
    let bytes: [u8; 5] = [0, 0, 0, 0, 1];
    let tables = Tables::new(&ROWS, &STARTS, &CODES, &FIXED);
    inject(mesh, log, 0, &bytes, &tables, 0).added
}

// A round, which answers the same.
pub fn turn(mesh: &mut [u32; WORDS], log: &mut [u32; 6]) -> u32
    ensures { result ≡ (added_of (round_left mesh.old lent (length log.old))).added }
{
    let mut none = [0u32; 0];
    let tables = Tables::new(&ROWS, &STARTS, &CODES, &FIXED);
    round(mesh, log, &tables, &mut none).added
}

pub fn watched_link_is_up(mesh: &mut [u32; WORDS], up: bool) {
    let _ = set_link(mesh, 1, 0, up);
}

pub fn watched_link(mesh: &[u32; WORDS]) -> LinkRead
    ensures { result ≡ link_read (holds_mesh mesh.now) (mesh_of mesh.now) 1 0 }
{
    look_link(mesh, 1, 0)
}

// The mark on the packet that a link holds.
pub fn mark_on(mesh: &[u32; WORDS], chip: u32, link: u32) -> u32
    ensures { result ≡ mark_of (flight_read (holds_mesh mesh.now) (mesh_of mesh.now) chip link 0).packet.control }
{
    let p = look_flight(mesh, chip, link, 0).packet;
    mark_of(p.control)
}

pub fn in_flight(mesh: &[u32; WORDS]) -> u32
    ensures { result ≡ (mesh_read (holds_mesh mesh.now) (mesh_of mesh.now)).in_flight }
{
    look_mesh(mesh).in_flight
}

pub fn sums(mesh: &[u32; WORDS]) -> Totals
    ensures { result ≡ totals mesh.now }
{
    Totals {
        sent: sum(mesh, SENT),
        delivered: sum(mesh, DELIVERED),
        dropped: sum(mesh, DROPPED),
    }
}

fn sum(mesh: &[u32; WORDS], counter: u32) -> u32
    ensures { result ≡ sum_of mesh.now counter 9 }
{
    let mut all: u32 = 0;
    for chip in 0..CHIPS {
        all = all.wrapping_add(read_counter(mesh, chip, counter).count);
    }
    all
}
