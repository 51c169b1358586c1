// Whether groups pay.
ghost use Rattle.std.specs.Prelude.{◌≡◌, length, get_or, ◌*◌, ◌+◌, ◌/◌, ◌≤◌, ◌<◌};
ghost use Rattle.tables.specs.Rows.{rows_of, blank_entry};
ghost use Rattle.groups.specs.Pays.{worth, is_taken, taken, pays};

use super::top::{fixes_top, top_of};

// For so many packets and rows, before a row is looked at.
pub fn worth(packets: usize, rows: usize) -> bool
    requires { packets ≤ 48 }
    ensures { result ≡ worth packets rows }
{
    (64..=1024).contains(&rows) && (rows * 6 + 1600 < packets * (rows - 40))
}

// With the marks of the groups that are asked for.
pub fn pays(packets: usize, rows: &[u32], marks: &[u8]) -> bool
    requires { (packets ≤ 48) × ((length rows.now / 3 ≤ 1024) × (length marks.now ≡ 256)) }
    ensures { result ≡ pays packets marks.now (rows_of rows.now) }
{
    let n = rows.len() / 3;
    let many = sampled(rows, marks);
    n * 6 + many * 104 + 1600 < packets * n.saturating_sub(many * 40 + 40)
}

// How many of every thirteenth row go into a group.
fn sampled(rows: &[u32], marks: &[u8]) -> usize
    requires { (length rows.now / 3 ≤ 1024) × (length marks.now ≡ 256) }
    ensures { result ≡ taken marks.now (rows_of rows.now) }
{
    let mut many = 0;
    for k in 0..rows.len() / 3 / 13 {
        if is_taken(rows, k * 13, marks) {
            many += 1;
        }
    }
    many
}

// Whether row i goes into a group.
fn is_taken(rows: &[u32], i: usize, marks: &[u8]) -> bool
    requires { (i * 3 + 2 < length rows.now) × (length marks.now ≡ 256) }
    ensures { result ≡ is_taken marks.now (get_or (rows_of rows.now) i blank_entry) }
{
    !fixes_top(rows, i) || (marks[top_of(rows[i * 3])] != 0)
}
