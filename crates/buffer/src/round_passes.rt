// All passes of a round, one after the other: what was set aside, chips by number, arrival links 0 to 5, oldest first.
ghost use Rattle.std.specs.Prelude.{◌≡◌, ◌+◌, ◌-◌, ◌<◌, ◌≤◌, [], ◌∷◌, length, slice_index};
ghost use Rattle.links.specs.Offsets.{width_at, height_at};
ghost use Rattle.links.specs.Words.{aside_place};
ghost use Rattle.groups.specs.Room.{longest};
ghost use Rattle.mesh.specs.Refusals.{Lent};
ghost use Rattle.mesh.specs.Lending.{with_room};
ghost use Rattle.mesh.specs.Steps.{pass_at, same};
ghost use Rattle.mesh.specs.Room.{keys_of, room_at, room_upto};
ghost use Rattle.buffer.specs.Grouping.{GroupsFor, RoomFits};
ghost use Rattle.buffer.specs.PassesInTurn.{arrival, pass_by, aside_by, aside_from, Due, DueAside, Passed};
ghost use Rattle.lists.specs.Lists.{up_to};
ghost use Rattle.buffer.specs.Layout.{chips_of};

use super::grouping::group_chip;
use super::logged_pass::{pass_found, pass_one};
use links::across::aside_place;
use links::link::packet_at;
use links::offsets::{HEIGHT, PLACE, WIDTH};
use mesh::lent::Tables;
use packet::Packet;
use tables::lent::ChipTables;
use tables::size::chips;

// At the first chips, each by its groups where they pay.
pub fn pass_chips(
    mesh: &mut [u32],
    log: &mut [u32],
    count: usize,
    tables: &Tables<'_>,
    room: &mut [u32],
) -> usize
    requires { (count ≤ chips_of mesh.old) × ((DueAside (up_to (aside_from mesh.old) count) mesh.old log.old 0 × Lent tables.now (chips_of mesh.old)) × RoomFits (length room.old) (longest tables.now.starts count)) }
    ensures passed { Passed (pass_at tables.now same) (up_to (aside_from mesh.old) count) mesh.old log.old 0 mesh.new log.new result }
    ensures room_after { room.new ≡ room_upto (with_room tables.now (length room.old)) (λ chip. keys_of (aside_from mesh.old chip)) count room.old }
{
    let mut n = 0;
    for chip in 0..count {
        n = pass_chip(mesh, log, n, chip, tables, room);
    }
    n
}

// At one chip, with its own tables: its groups are built first, where they pay.
fn pass_chip(
    mesh: &mut [u32],
    log: &mut [u32],
    n: usize,
    chip: usize,
    tables: &Tables<'_>,
    room: &mut [u32],
) -> usize
    requires { ((chip < chips_of mesh.old) × (DueAside (aside_from mesh.old chip) mesh.old log.old n × Lent tables.now (chips_of mesh.old))) × RoomFits (length room.old) (slice_index tables.now.starts (chip + 1) - slice_index tables.now.starts chip) }
    ensures passed { Passed (pass_at tables.now same) (aside_from mesh.old chip) mesh.old log.old n mesh.new log.new result }
    ensures room_after { room.new ≡ room_at tables.now (keys_of (aside_from mesh.old chip)) chip room.old }
{
    let own = tables.chip(chip, chips(mesh[WIDTH], mesh[HEIGHT]));
    let used = group_chip(mesh, chip, own.rows(), room);
    pass_links(mesh, log, n, chip, &own, &room[..used])
}

// At one chip by all its links.
fn pass_links(
    mesh: &mut [u32],
    log: &mut [u32],
    n: usize,
    chip: usize,
    tables: &ChipTables<'_>,
    room: &[u32],
) -> usize
    requires { (chip < chips_of mesh.old) × (DueAside (aside_from mesh.old chip) mesh.old log.old n × ((chips_of mesh.old ≤ length tables.now.codes) × GroupsFor tables.now.rows room.now (aside_from mesh.old chip))) }
    ensures { Passed (pass_by tables.now) (aside_from mesh.old chip) mesh.old log.old n mesh.new log.new result }
{
    let width = mesh[WIDTH];
    let height = mesh[HEIGHT];
    let x = (chip as u32) % width;
    let y = (chip as u32) / width;
    let mut done = n;
    for source in 0..6 {
        let at = aside_place(width, height, x, y, source);
        done = pass_link(mesh, log, done, chip, source, at, tables, room);
    }
    done
}

// At one chip by one link: how many were set aside stands at a place, and they behind it.
fn pass_link(
    mesh: &mut [u32],
    log: &mut [u32],
    n: usize,
    chip: usize,
    source: u32,
    at: usize,
    tables: &ChipTables<'_>,
    room: &[u32],
) -> usize
    requires { ((at ≡ aside_place (slice_index mesh.old width_at) (slice_index mesh.old height_at) chip source) × (source < 6)) × (DueAside (aside_by mesh.old chip source) mesh.old log.old n × ((chips_of mesh.old ≤ length tables.now.codes) × GroupsFor tables.now.rows room.now (aside_by mesh.old chip source))) }
    ensures { Passed (pass_by tables.now) (aside_by mesh.old chip source) mesh.old log.old n mesh.new log.new result }
{
    let count = mesh[at] as usize;
    let mut done = n;
    for i in 0..count {
        let p = packet_at(mesh, at + 1 + i * PLACE);
        done = pass_next(mesh, log, done, chip, source, p, tables, room);
    }
    done
}

// One of them, by the chip's groups where the room holds some.
fn pass_next(
    mesh: &mut [u32],
    log: &mut [u32],
    n: usize,
    chip: usize,
    source: u32,
    p: Packet,
    tables: &ChipTables<'_>,
    room: &[u32],
) -> usize
    requires { (Due (arrival chip source p ∷ []) mesh.old log.old n × (chips_of mesh.old ≤ length tables.now.codes)) × GroupsFor tables.now.rows room.now (arrival chip source p ∷ []) }
    ensures { Passed (pass_by tables.now) (arrival chip source p ∷ []) mesh.old log.old n mesh.new log.new result }
{
    if room.len() == 0 {
        return pass_one(mesh, log, n, chip, source, p, tables);
    }
    pass_found(mesh, log, n, chip, source, p, tables, room)
}
