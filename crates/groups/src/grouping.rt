// The groups that some keys ask for, built where they pay.
ghost use Rattle.std.specs.Prelude.{◌≡◌, ◌&&◌, cond, length, ◌/◌, ◌≤◌};
ghost use Rattle.tables.specs.Rows.{rows_of};
ghost use Rattle.groups.specs.Groups.{marks_of, room_after, room_for};
ghost use Rattle.groups.specs.Pays.{worth, pays};
ghost use Rattle.groups.specs.Grouping.{groups_left};

use super::asking::Asks;
use super::building::build;
use super::paying::{pays, worth};

// Answers whether it built them. What the room held before counts for nothing.
pub fn group(keys: &[u32], rows: &[u32], room: &mut [u32]) -> bool
    requires { (length keys.now ≤ 48) × (room_for (length rows.now / 3) ≤ length room.old) }
    ensures value { result ≡ (worth (length keys.now) (length (rows_of rows.now)) && pays (length keys.now) (marks_of keys.now) (rows_of rows.now)) }
    ensures room_after { room.new ≡ groups_left keys.now (rows_of rows.now) room.old }
{
    worth(keys.len(), rows.len() / 3) && group_asked(keys, rows, room)
}

// Where asking is worth it.
fn group_asked(keys: &[u32], rows: &[u32], room: &mut [u32]) -> bool
    requires { (length keys.now ≤ 48) × ((length rows.now / 3 ≤ 1024) × (room_for (length rows.now / 3) ≤ length room.old)) }
    ensures value { result ≡ pays (length keys.now) (marks_of keys.now) (rows_of rows.now) }
    ensures room_after { room.new ≡ cond (pays (length keys.now) (marks_of keys.now) (rows_of rows.now)) (room_after (marks_of keys.now) (rows_of rows.now) room.old) room.old }
{
    let asks = Asks::of(keys);
    let paying = pays(keys.len(), rows, &asks.marks);
    if paying {
        build(rows, asks.tops(), &asks.marks, room);
    }
    paying
}
