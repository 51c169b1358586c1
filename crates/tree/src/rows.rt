// The rows of a tree, chips by number, and where each chip's start.
ghost use Rattle.std.specs.Prelude.{◌≡◌, cond, ◌++◌, length, drop, ◌+◌, ◌*◌, ◌≤◌, ◌<◌};
ghost use Rattle.tree.specs.Rows.{entered_at, route_at, has_row, start_of, rows_below, starts_below};
ghost use Rattle.tree.specs.Walking.{with_row};

use super::growing::Grown;

pub fn write_rows(
    key: u32,
    mask: u32,
    all: usize,
    tree: &Grown,
    rows: &mut [u32],
    starts: &mut [u32],
) -> usize
    requires { (all ≤ 144) × ((3 * all ≤ length rows.old) × (length starts.old ≡ all + 1)) }
    ensures value { result ≡ start_of tree.now all }
    ensures rows_after { rows.new ≡ rows_below tree.now key mask all ++ drop (length (rows_below tree.now key mask all)) rows.old }
    ensures starts_after { starts.new ≡ starts_below tree.now (all + 1) }
{
    let mut count: usize = 0;
    for chip in 0..all {
        starts[chip] = count as u32;
        count = write_row(key, mask, tree, chip, rows, count);
    }
    starts[all] = count as u32;
    count
}

// A chip's row, where it has one, behind those before: how many there are then.
fn write_row(
    key: u32,
    mask: u32,
    tree: &Grown,
    chip: usize,
    rows: &mut [u32],
    count: usize,
) -> usize
    requires { (chip < 144) × (count * 3 + 3 ≤ length rows.old) }
    ensures value { result ≡ count + cond (has_row tree.now chip) 1 0 }
    ensures rows_after { rows.new ≡ with_row key mask (entered_at tree.now chip) (route_at tree.now chip) count rows.old }
{
    let Some(route) = tree.row(chip) else {
        return count;
    };
    let at = count * 3;
    rows[at] = key;
    rows[at + 1] = mask;
    rows[at + 2] = route;
    count + 1
}
