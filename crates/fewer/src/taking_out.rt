// Taking out, in one walk down the rows in hand: a row stays where it matches some key and none of those kept covers it.
ghost use Rattle.std.specs.Prelude.{◌≡◌, not, length, ◌+◌, ◌≤◌, ◌<◌};
ghost use Rattle.fewer.specs.Process.{covers, matches_some};
ghost use Rattle.fewer.specs.Hand.{numbered_of, held_of, AllMatch, walk_rows, Walking, Tested, Covered, Passes, TookOut, TakesRows, Begins, some_covers};

use super::{Held, Walk};

// How many of the first rows stay, in one walk. The numbers of the others are listed, each where the number of rows that are gone before it says.
pub fn take_out(held: &mut [Held], gone: &mut [u32], count: usize) -> usize
    requires { Walking 0 count held.old gone.old (record { kept = 0; next = 0; count = count }) }
    ensures { TookOut held.old gone.old (record { kept = 0; next = 0; count = count }) held.new gone.new result }
{
    let begun = Walk {
        kept: 0,
        next: 0,
        count: count,
    };
    let uncovered = |held: &[Held], row: Held, kept: usize|
        requires { kept ≤ length held.now }
        ensures { Tested (held_of held.now) (numbered_of row).entry 0 kept result }
    { row.matches_some() && !any_covers(held, row, kept) };
    walk_down(held, gone, begun, uncovered)
}

// How many rows stay once row `at` is a joined one, and the row below it is gone: no row can go but by it.
pub fn take_out_under(held: &mut [Held], gone: &mut [u32], at: usize, count: usize) -> usize
    requires { (Walking at (at + 1) held.old gone.old (record { kept = at + 1; next = at + 2; count = count })) × (AllMatch (walk_rows held.old (record { kept = at + 1; next = at + 2; count = count }))) }
    ensures { TookOut held.old gone.old (record { kept = at + 1; next = at + 2; count = count }) held.new gone.new result }
{
    let one = held[at];
    let begun = Walk {
        kept: at + 1,
        next: at + 2,
        count: count,
    };
    let uncovered = |_: &[Held], row: Held, _: usize|
        ensures { result ≡ not (covers (numbered_of one).entry (numbered_of row).entry) }
    { !one.covers(row) };
    walk_down(held, gone, begun, uncovered)
}

// How many rows stay at the end of a walk, by a test of each: it is given the rows in hand, the row, and how many of the first rows are kept.
// The rows, the room for numbers and the walk stay apart: `Walk` is what `walk_rows`, `Walking` and `WentOn` of specs/Hand speak of, and a struct that borrowed
// both slices would be one value more to take apart in each of them and in its callers, which go on with the slices.
fn walk_down<F: Fn(&[Held], Held, usize) -> bool>(
    held: &mut [Held],
    gone: &mut [u32],
    mut walk: Walk,
    stays: F,
) -> usize
    requires takes { TakesRows (F.pre stays) }
    requires begins { Begins (F.post stays) held.old gone.old walk }
    ensures { TookOut held.old gone.old walk held.new gone.new result }
{
    // `pass` moves the walk, and its place is part of what the steps promise each other: a range would count it twice.
    while walk.next < walk.count {
        let row = held[walk.next];
        let staying = stays(held, row, walk.kept);
        walk = pass(held, gone, walk, row, staying);
    }
    walk.kept
}

// One row further on: the row there is kept, or its number is listed.
fn pass(held: &mut [Held], gone: &mut [u32], walk: Walk, row: Held, staying: bool) -> Walk
    requires { (walk.kept ≤ walk.next) × ((walk.next < walk.count) × ((walk.count ≤ length gone.old) × (walk.count ≤ length held.old))) }
    ensures passes { Passes held.old gone.old walk (numbered_of row) staying held.new gone.new result }
    ensures next_lt_next { walk.next < result.next }
{
    let kept = walk.kept;
    let next = walk.next;
    let count = walk.count;
    if staying {
        held[kept] = row;
        return Walk {
            kept: kept + 1,
            next: next + 1,
            count: count,
        };
    }
    let listed = gone.len() - (kept + (count - next));
    gone[listed] = row.number;
    Walk {
        kept: kept,
        next: next + 1,
        count: count,
    }
}

// Whether one of the first rows covers a row: four of them a turn, then what is left of them.
fn any_covers(held: &[Held], row: Held, upto: usize) -> bool
    requires { upto ≤ length held.now }
    ensures { Covered (held_of held.now) (numbered_of row).entry 0 upto result }
{
    let mut fours = held[..upto].chunks_exact(4);
    let rest = fours.remainder();
    fours.any(|four| four_cover(four, row)) || rest.iter().any(|one| one.covers(row))
}

// Whether one of four rows covers a row.
fn four_cover(four: &[Held], row: Held) -> bool
    requires { length four.now ≡ 4 }
    ensures { result ≡ some_covers (numbered_of row).entry four.now }
{
    four[0].covers(row) | four[1].covers(row) | four[2].covers(row) | four[3].covers(row)
}

impl Held {
    fn matches_some(self) -> bool
        ensures { result ≡ matches_some (numbered_of self).entry }
    {
        (self.key & self.mask) == self.key
    }

    // Not `covered::covers`, which asks as well whether the later row matches some key: `Process.covers`, of which the law `covers_exactly` speaks, is without that, and
    // where the rows left are searched it would be asked again at each of them.
    fn covers(self, later: Held) -> bool
        ensures { result ≡ covers (numbered_of self).entry (numbered_of later).entry }
    {
        ((self.mask & later.mask) == self.mask) & ((later.key & self.mask) == self.key)
    }
}
