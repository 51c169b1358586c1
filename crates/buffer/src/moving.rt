// The two calls that move packets, injection and round: whether they are refused, and else their passes, one (`logged_pass`) or all of
// a round (`round_passes`).
ghost use Rattle.std.specs.Prelude.{◌≡◌, ◌≤◌, [], ◌∷◌, length, slice_index};
ghost use Rattle.mesh.specs.Lending.{with_room};
ghost use Rattle.mesh.specs.Steps.{pass_at, same};
ghost use Rattle.mesh.specs.Refusals.{Lent};
ghost use Rattle.buffer.specs.Layout.{chips_of};
ghost use Rattle.buffer.specs.PassesInTurn.{arrival, Due, Passed};
ghost use Rattle.buffer.specs.Leaving.{Moves, inject_left, round_left, round_room, over_words};
ghost use Rattle.buffer.specs.Testing.{numbers_of, tested_of};
ghost use Rattle.links.specs.Offsets.{elapsed_at, header_long};

use super::aside::set_aside;
use super::logged_pass::pass_one;
use super::refusing::{injected_packet, place_told, round_refusal};
use super::round_passes::pass_chips;
use super::testing::{Tested, test};
use links::offsets::{ELAPSED, HEIGHT, PHASE, ROUNDS, WIDTH};
use links::phase::next_phase;
use mesh::Added;
use mesh::lent::Tables;
use packet::Packet;
use tables::size::chips;

// Passes a local packet at a chip, at once. Refusals, the first that applies: 8 no mesh, 9 chip, 15 starts, 16 too
// many rows, 17 route bits, 18 fixed routes, 11 codes, 29 room, 10 log, 2 length, 4 NN with T = 1.
pub fn inject(
    mesh: &mut [u32],
    log: &mut [u32],
    chip: u32,
    bytes: &[u8],
    tables: &Tables<'_>,
    room: usize,
) -> Added
    ensures { Moves mesh.old log.old (inject_left mesh.old (with_room tables.now room) (length log.old) chip bytes.now) result mesh.new log.new }
{
    let tested = test(mesh, tables, room);
    inject_tested(mesh, log, chip, bytes, tables, room, tested)
}

// Passes all that is in flight; then, after each F rounds, the phase steps on. Refusals, the first that applies: 8 no mesh,
// 15 starts, 16 too many rows, 17 route bits, 18 fixed routes, 11 codes, 29 room, 10 log.
pub fn round(mesh: &mut [u32], log: &mut [u32], tables: &Tables<'_>, room: &mut [u32]) -> Added
    ensures moves { Moves mesh.old log.old (round_left mesh.old (with_room tables.now (length room.old)) (length log.old)) result mesh.new log.new }
    ensures room_after { room.new ≡ round_room mesh.old (with_room tables.now (length room.old)) (length log.old) room.old }
{
    let tested = test(mesh, tables, room.len());
    round_tested(mesh, log, tables, room, tested)
}

// An injection where buffer and tables were tested.
pub fn inject_tested(
    mesh: &mut [u32],
    log: &mut [u32],
    chip: u32,
    bytes: &[u8],
    tables: &Tables<'_>,
    room: usize,
    tested: Tested,
) -> Added
    requires { numbers_of tested ≡ tested_of mesh.old (with_room tables.now room) }
    ensures { Moves mesh.old log.old (inject_left mesh.old (with_room tables.now room) (length log.old) chip bytes.now) result mesh.new log.new }
{
    match injected_packet(mesh, tested, log.len(), chip, bytes) {
        Ok(p) => {
            let n = pass_there(mesh, log, chip as usize, p, tables);
            let added = n as u32;
            Added {
                refusal: 0,
                added,
                place: 0,
            }
        }
        Err(refused) => Added {
            refusal: u32::from(refused),
            added: 0,
            place: place_told(tested, refused),
        },
    }
}

// The pass of a local packet at a chip, with the chip's own tables.
fn pass_there(
    mesh: &mut [u32],
    log: &mut [u32],
    chip: usize,
    p: Packet,
    tables: &Tables<'_>,
) -> usize
    requires { Due (arrival chip 7 p ∷ []) mesh.old log.old 0 × Lent tables.now (chips_of mesh.old) }
    ensures { Passed (pass_at tables.now same) (arrival chip 7 p ∷ []) mesh.old log.old 0 mesh.new log.new result }
{
    let own = tables.chip(chip, chips(mesh[WIDTH], mesh[HEIGHT]));
    pass_one(mesh, log, 0, chip, 7, p, &own)
}

// A round where buffer and tables were tested.
pub fn round_tested(
    mesh: &mut [u32],
    log: &mut [u32],
    tables: &Tables<'_>,
    room: &mut [u32],
    tested: Tested,
) -> Added
    requires { numbers_of tested ≡ tested_of mesh.old (with_room tables.now (length room.old)) }
    ensures moves { Moves mesh.old log.old (round_left mesh.old (with_room tables.now (length room.old)) (length log.old)) result mesh.new log.new }
    ensures room_after { room.new ≡ round_room mesh.old (with_room tables.now (length room.old)) (length log.old) room.old }
{
    if let Err(refused) = round_refusal(mesh, tested, log.len()) {
        return Added {
            refusal: u32::from(refused),
            added: 0,
            place: place_told(tested, refused),
        };
    }
    let all = chips(mesh[WIDTH], mesh[HEIGHT]);
    set_aside(mesh, all);
    let n = pass_chips(mesh, log, all, tables, room);
    round_over(mesh);
    let added = n as u32;
    Added {
        refusal: 0,
        added,
        place: 0,
    }
}

fn round_over(mesh: &mut [u32])
    requires { (header_long ≤ length mesh.old) × (slice_index mesh.old elapsed_at ≤ 65535) }
    ensures { mesh.new ≡ over_words mesh.old }
{
    let next = mesh[ELAPSED] + 1;
    if next < mesh[ROUNDS] {
        mesh[ELAPSED] = next;
    } else {
        mesh[ELAPSED] = 0;
        mesh[PHASE] = next_phase(mesh[PHASE]);
    }
}
