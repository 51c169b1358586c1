// A chip's groups, built before its passes in a round where they pay: the words of all packets that were set aside for it ask for them.
ghost use Rattle.std.specs.Prelude.{◌≡◌, ◌+◌, ◌/◌, ◌<◌, ◌≤◌, ◌++◌, length, take, if◌then◌else◌, nat_eq, slice_index};
ghost use Rattle.tables.specs.Rows.{rows_of};
ghost use Rattle.groups.specs.Grouping.{groups_left};
ghost use Rattle.links.specs.Offsets.{width_at, height_at};
ghost use Rattle.links.specs.Words.{aside_place};
ghost use Rattle.mesh.specs.Room.{keys_of};
ghost use Rattle.buffer.specs.PassesInTurn.{aside_by, aside_from};
ghost use Rattle.buffer.specs.Grouping.{AsideThere, GroupsFor, RoomFits};

use groups::grouping::group;
use groups::paying::worth;
use links::across::aside_place;
use links::offsets::{HEIGHT, PLACE, WIDTH};

// Builds them in the room, where some is lent. Answers how much of it the chip's passes go by: all of it, or nothing.
pub fn group_chip(mesh: &[u32], chip: usize, rows: &[u32], room: &mut [u32]) -> usize
    requires { AsideThere mesh.now chip × RoomFits (length room.old) (length rows.now / 3) }
    ensures room_after { room.new ≡ (if nat_eq (length room.old) 0 then room.old else groups_left (keys_of (aside_from mesh.now chip)) (rows_of rows.now) room.old) }
    ensures groups_for { GroupsFor rows.now (take result room.new) (aside_from mesh.now chip) × (result ≤ length room.new) }
{
    if room.len() == 0 {
        return 0;
    }
    if !worth(count_aside(mesh, chip), rows.len() / 3) {
        return 0;
    }
    let mut keys = [0u32; 48];
    let count = keys_aside(mesh, chip, &mut keys);
    if group(&keys[..count], rows, room) {
        return room.len();
    }
    0
}

// How many packets were set aside for a chip.
fn count_aside(mesh: &[u32], chip: usize) -> usize
    requires { AsideThere mesh.now chip }
    ensures { (result ≡ length (aside_from mesh.now chip)) × (result ≤ 48) }
{
    let width = mesh[WIDTH];
    let height = mesh[HEIGHT];
    let x = (chip as u32) % width;
    let y = (chip as u32) / width;
    let mut count = 0;
    for source in 0..6 {
        count += mesh[aside_place(width, height, x, y, source)] as usize;
    }
    count
}

// The words of all packets that were set aside for a chip, link after link. Answers how many they are.
fn keys_aside(mesh: &[u32], chip: usize, keys: &mut [u32]) -> usize
    requires { AsideThere mesh.now chip × (length keys.old ≡ 48) }
    ensures { (take result keys.new ≡ keys_of (aside_from mesh.now chip)) × (result ≤ 48) }
{
    let width = mesh[WIDTH];
    let height = mesh[HEIGHT];
    let x = (chip as u32) % width;
    let y = (chip as u32) / width;
    let mut count = 0;
    for source in 0..6 {
        let at = aside_place(width, height, x, y, source);
        count = keys_by(mesh, chip, source, at, keys, count);
    }
    count
}

// Those of one link, behind so many others: how many stands at a place, and they behind it.
fn keys_by(
    mesh: &[u32],
    chip: usize,
    source: u32,
    at: usize,
    keys: &mut [u32],
    count: usize,
) -> usize
    requires { AsideThere mesh.now chip × (((at ≡ aside_place (slice_index mesh.now width_at) (slice_index mesh.now height_at) chip source) × (source < 6)) × ((count + 8 ≤ length keys.old) × (length keys.old ≡ 48))) }
    ensures { (take result keys.new ≡ take count keys.old ++ keys_of (aside_by mesh.now chip source)) × (result ≤ count + 8) }
{
    let here = mesh[at] as usize;
    for i in 0..here {
        keys[count + i] = mesh[at + 2 + i * PLACE];
    }
    count + here
}
