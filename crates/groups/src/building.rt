// The groups that are asked for, built afresh in lent room, row by row.
ghost use Rattle.std.specs.Prelude.{◌≡◌, ◌++◌, length, drop, ◌+◌, ◌/◌, ◌≤◌, ◌<◌};
ghost use Rattle.tables.specs.Rows.{rows_of};
ghost use Rattle.groups.specs.Groups.{room_after, room_for};
ghost use Rattle.groups.specs.Asking.{Asked};
ghost use Rattle.groups.specs.Building.{sofar, Listed, PutFits, after_put, Placed, Kept};

use super::top::{fixes_top, top_of};

// The groups of a chip's rows for the top bytes that are listed, which are those that are marked. What the room held counts for nothing, and stays where no number is written.
pub fn build(rows: &[u32], tops: &[u8], marks: &[u8], room: &mut [u32])
    requires { ((length rows.now / 3 ≤ 1024) × (room_for (length rows.now / 3) ≤ length room.old)) × ((length marks.now ≡ 256) × Asked marks.now tops.now) }
    ensures { room.new ≡ room_after marks.now (rows_of rows.now) room.old }
{
    begin(marks, room);
    for i in 0..rows.len() / 3 {
        place(rows, tops, room, i);
    }
}

// The words of the groups, before any row: 1 where a group is asked for, else 0.
fn begin(marks: &[u8], room: &mut [u32])
    requires { (length marks.now ≡ 256) × (256 ≤ length room.old) }
    ensures { room.new ≡ marks.now ++ drop 256 room.old }
{
    for g in 0..marks.len() {
        room[g] = u32::from(marks[g]);
    }
}

// Row i into its group, or into every group that is asked for where it fixes no top byte.
fn place(rows: &[u32], tops: &[u8], room: &mut [u32], i: usize)
    requires rows_len_bound { (length rows.now / 3 ≤ 1024) × (room_for (length rows.now / 3) ≤ length room.old) }
    requires i_in_bounds { (i < length rows.now / 3) × (Listed tops.now × Placed tops.now (rows_of rows.now) (sofar (rows_of rows.now) i) room.old) }
    ensures placed { Placed tops.now (rows_of rows.now) (sofar (rows_of rows.now) (i + 1)) room.new }
    ensures kept { Kept tops.now (length (rows_of rows.now)) (sofar (rows_of rows.now) (i + 1)) room.old room.new }
{
    let n = rows.len() / 3;
    let number = i as u32;
    if fixes_top(rows, i) {
        put(room, n, top_of(rows[i * 3]), number);
        return;
    }
    for top in tops {
        put(room, n, usize::from(*top), number);
    }
}

// A row's number at the end of group g so far, where the group is asked for.
fn put(room: &mut [u32], n: usize, g: usize, number: u32)
    requires { PutFits room.old n g }
    ensures { room.new ≡ after_put room.old n g number }
{
    let count = room[g];
    if count != 0 {
        room[256 + g * n + (count as usize)] = number;
        room[g] = count + 1;
    }
}
