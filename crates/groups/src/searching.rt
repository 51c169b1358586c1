// The search through the group of a key's top byte.
ghost use Rattle.std.specs.Prelude.{◌≡◌, length, ◌/◌, ◌≤◌, ◌<◌};
ghost use Rattle.tables.specs.Rows.{rows_of, first_match};
ghost use Rattle.groups.specs.Groups.{top_of, GroupedFor};

use super::top::top_of;
use tables::search::matches_at;

// The number of the first row that matches the key, of those in its group: what the plain search gives.
pub fn grouped_row(rows: &[u32], room: &[u32], key: u32) -> Option<usize>
    requires { (length rows.now / 3 ≤ 1024) × (top_of key < 256 → GroupedFor (rows_of rows.now) room.now key) }
    ensures { result ≡ first_match key (rows_of rows.now) }
{
    let n = rows.len() / 3;
    let g = top_of(key);
    let begin = 257 + g * n;
    let end = 256 + g * n + (room[g] as usize);
    for row in &room[begin..end] {
        let i = *row as usize;
        if matches_at(rows, i, key) {
            return Some(i);
        }
    }
    None
}
