// One destination's marks, one a chip: how many links a way of fewest links to it has. Level by level, and a chip's code from them.
ghost use Rattle.std.specs.Prelude.{◌≡◌, length, get_or, ℕ, ◌-◌, ◌≤◌, ◌<◌};
ghost use Rattle.mesh.specs.Mesh.{Mesh};
ghost use Rattle.flood.specs.Marks.{mark_after, Around, is_below, first_on, is_next, code_on, IsFirst, Spread};

// The mark of a chip that no level has reached: above every level, so that one comparison asks for a mark and for a low one.
const UNREACHED: u8 = 255;

// The code that leads nowhere.
const NOWHERE: u8 = 6;

// The code of a chip for itself.
const ONESELF: u8 = 7;

// From the destination outwards, until a level marks no chip: no level after it would. A way of fewest links has fewer links than there are chips.
pub fn marks_to(around: &[u8; 864], all: usize, to: usize) -> [u8; 144]
    requires { (to < all) × (all ≤ 144) }
    ensures { (m : Mesh (Unit {0})) → Around m all around.now → (c : ℕ) → c < all → get_or result c 0 ≡ mark_after m to (all - 1) c }
{
    let mut marks = [UNREACHED; 144];
    marks[to] = 0;
    for level in 1..all as u8 {
        if !spread(around, all, level, &mut marks) {
            break;
        }
    }
    marks
}

// The code of a chip: the lowest link to a chip that is nearer.
pub fn code_on(around: &[u8; 864], marks: &[u8; 144], chip: usize) -> u8
    requires { chip < 144 }
    ensures { result ≡ code_on around.now marks.now chip }
{
    match marks[chip] {
        0 => ONESELF,
        UNREACHED => NOWHERE,
        mark => first_on(around, marks, mark, chip).unwrap_or(NOWHERE),
    }
}

// One level: marks each chip that has no mark and an up link to one that had. Whether there is any.
fn spread(around: &[u8; 864], all: usize, level: u8, marks: &mut [u8; 144]) -> bool
    requires { (all ≤ 144) × (length marks.old ≡ 144) }
    ensures { Spread around.now all level marks.old marks.new result }
{
    let mut more = false;
    for chip in 0..all {
        if is_next(around, marks, level, chip) {
            marks[chip] = level;
            more = true;
        }
    }
    more
}

fn is_next(around: &[u8; 864], marks: &[u8; 144], level: u8, chip: usize) -> bool
    requires { chip < 144 }
    ensures { result ≡ is_next around.now marks.now level chip }
{
    (marks[chip] == UNREACHED) && first_on(around, marks, level, chip).is_some()
}

// The lowest link of a chip that is up and leads to a mark below a level. A chip that this level marks has the level for its mark,
// and so counts from the next on.
fn first_on(around: &[u8; 864], marks: &[u8; 144], level: u8, chip: usize) -> Option<u8>
    requires { chip < 144 }
    ensures { IsFirst (first_on around.now marks.now level chip) result }
{
    for i in 0..6 {
        if is_below(marks, level, around[chip * 6 + i]) {
            return Some(i as u8);
        }
    }
    None
}

// A link that is down leads to no chip.
fn is_below(marks: &[u8; 144], level: u8, lead: u8) -> bool
    ensures { result ≡ is_below marks.now level lead }
{
    (lead < 144) && (marks[usize::from(lead)] < level)
}
