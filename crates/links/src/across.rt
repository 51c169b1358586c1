// Where a link leads: the mesh is W by H and wraps.
ghost use Rattle.std.specs.Prelude.{◌≡◌, true, ℕ, ◌+◌, ◌/◌, ◌%◌, ◌≤◌, ◌<◌};
ghost use Rattle.tables.specs.Sizes.{size_fine};
ghost use Rattle.links.specs.Across.{step_east, step_north, across};
ghost use Rattle.links.specs.Words.{aside_place};

use super::offsets::{ASIDE, CHIP, HEADER, LINK, LINKS_AT};

// The place of the count of what was set aside for the chip at x and y, on the link opposite to the one that it arrives by.
pub fn aside_place(width: u32, height: u32, x: u32, y: u32, source: u32) -> usize
    requires { (size_fine width height ≡ true) × ((x < width) × ((y < height) × (source < 6))) }
    ensures { (chip : ℕ) → x ≡ chip % width → y ≡ chip / width → result ≡ aside_place width height chip source }
{
    let from = across_link(width, height, x, y, source) as usize;
    let link = ((source + 3) % 6) as usize;
    HEADER + from * CHIP + (LINKS_AT + link * LINK) + ASIDE
}

// The chip at the other end of link i of the chip at x and y.
pub fn across_link(width: u32, height: u32, x: u32, y: u32, i: u32) -> u32
    requires { (size_fine width height ≡ true) × ((x < width) × (y < height)) }
    ensures by_index { (chip : ℕ) → x ≡ chip % width → y ≡ chip / width → result ≡ across width height chip i }
    ensures upper_bound { result < 144 }
{
    north_of(height, y, i) * width + east_of(width, x, i)
}

// How far east the chip at the other end of link i lies, and how far north.
pub fn east_of(width: u32, x: u32, i: u32) -> u32
    requires { ((1 ≤ width) × (width ≤ 12)) × (x < width) }
    ensures { result ≡ (x + step_east width i) % width }
{
    wrapped(x + step_east(width, i), width)
}

pub fn north_of(height: u32, y: u32, i: u32) -> u32
    requires { ((1 ≤ height) × (height ≤ 12)) × (y < height) }
    ensures { result ≡ (y + step_north height i) % height }
{
    wrapped(y + step_north(height, i), height)
}

// A place past the last, back at the first: what is left of a division, without one.
pub fn wrapped(place: u32, size: u32) -> u32
    requires { place < size + size }
    ensures { result ≡ place % size }
{
    if place < size { place } else { place - size }
}

fn step_east(width: u32, i: u32) -> u32
    requires { (1 ≤ width) × (width ≤ 12) }
    ensures { (result ≡ step_east width i) × (result ≤ width) }
{
    match i {
        0 | 1 => 1,
        3 | 4 => width - 1,
        _ => 0,
    }
}

fn step_north(height: u32, i: u32) -> u32
    requires { (1 ≤ height) × (height ≤ 12) }
    ensures { (result ≡ step_north height i) × (result ≤ height) }
{
    match i {
        1 | 2 => 1,
        4 | 5 => height - 1,
        _ => 0,
    }
}
