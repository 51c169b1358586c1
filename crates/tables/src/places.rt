// The first place where lent tables are wrong, for a call that refuses them. Each walk goes once more over what a quick test has found wrong as a whole.
// The answers are numbers, one past the end for none, as the definitions have them, of which the theorem `places_exact` speaks.
ghost use Rattle.std.specs.Prelude.{◌≡◌, not, length, ◌+◌, ◌-◌, ◌≤◌};
ghost use Rattle.tables.specs.Accept.{few_rows};
ghost use Rattle.tables.specs.Places.{starts_place, crowd_place, route_place, fixed_place};

use super::accept::{MOST_ROWS, route_fine};
use super::search::route_at;

// The first position where the starts are wrong; one more than the chips where they are right.
pub fn starts_place(starts: &[u32], chips: usize, rows: usize) -> usize
    requires { 1 ≤ chips }
    ensures { result ≡ starts_place starts.now chips rows }
{
    if starts.len() == 0 {
        return 0;
    }
    if starts.len() - 1 != chips {
        return 0;
    }
    if starts[0] != 0 {
        return 0;
    }
    for c in 0..chips {
        if starts[c + 1] < starts[c] {
            return c + 1;
        }
    }
    if starts[chips] as usize != rows {
        return chips;
    }
    chips + 1
}

// The lowest chip with too many rows; the number of chips where there is none.
pub fn crowd_place(starts: &[u32], chips: usize) -> usize
    requires { length starts.now ≡ chips + 1 }
    ensures { result ≡ crowd_place starts.now chips }
{
    for c in 0..chips {
        if too_many(starts[c], starts[c + 1]) {
            return c;
        }
    }
    chips
}

// The first row with a route bit above 25, or the words past the last whole row; one more than the whole rows where there is neither.
pub fn route_place(rows: &[u32]) -> usize
    ensures { result ≡ route_place rows.now }
{
    let count = rows.len() / 3;
    for i in 0..count {
        if !route_fine(route_at(rows, i)) {
            return i;
        }
    }
    if rows.len() % 3 != 0 {
        return count;
    }
    count + 1
}

// The lowest chip with a fixed route bit above 25, 0 where their number is wrong; the number of chips where they are fine.
pub fn fixed_place(fixed: &[u32], chips: usize) -> usize
    requires { 1 ≤ chips }
    ensures { result ≡ fixed_place fixed.now chips }
{
    if fixed.len() != chips {
        return 0;
    }
    for c in 0..chips {
        if !route_fine(fixed[c]) {
            return c;
        }
    }
    chips
}

// Whether more rows than a chip may have lie between a start and the next.
fn too_many(start: u32, next: u32) -> bool
    ensures { result ≡ not (few_rows (next - start)) }
{
    start as usize + MOST_ROWS < next as usize
}
