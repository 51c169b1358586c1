// The way that is taken to a chip: signed steps east and north, least over all ways round the mesh.
ghost use Rattle.std.specs.Prelude.{◌≡◌, pos, neg_ℤ, ◌+◌, ◌*◌, ◌-◌, ◌%◌, ◌≤◌, ◌<◌};
ghost use Rattle.tree.specs.Way.{offset, way_to, way_between};
ghost use Rattle.tree.specs.Walking.{Small, CountedRight, nearer};

use super::places::Size;
use super::{Counted, Way};
use links::across::wrapped;

pub fn way_between(size: Size, from: u32, to: u32) -> Way
    requires { (from < size.height * size.width) × (to < size.height * size.width) }
    ensures { (result ≡ way_between size.width size.height from to) × Small result }
{
    let width = size.width;
    let east = forward(width, from % width, to % width);
    let north = forward(size.height, from / width, to / width);
    way_to(size, east, north)
}

// The steps forwards on a ring from a place to another.
fn forward(size: u32, from: u32, to: u32) -> u32
    requires { (from < size) × ((to < size) × (size ≤ 12)) }
    ensures { (result ≡ offset size from to) × (result < size) }
{
    wrapped(to + (size - from), size)
}

// The least way of each pair of directions, and the least of the four. Forwards in both, steps beyond the smaller number cost nothing up to the larger, and are taken.
fn way_to(size: Size, east: u32, north: u32) -> Way
    requires { (east < size.width) × (north < size.height) }
    ensures { (result ≡ way_to size.width size.height east north) × Small result }
{
    let width = size.width;
    let height = size.height;
    let far = east.max(north);
    let back = wrapped(width - east, width);
    let down = wrapped(height - north, height);
    let forwards = Counted {
        way: Way {
            east: signed(far - within_ring(far - east, width)),
            north: signed(far - within_ring(far - north, height)),
        },
        links: far,
    };
    let east_south = Counted {
        way: Way {
            east: signed(east),
            north: negative(down),
        },
        links: east + down,
    };
    let west_north = Counted {
        way: Way {
            east: negative(back),
            north: signed(north),
        },
        links: back + north,
    };
    let backwards = Counted {
        way: Way {
            east: negative(back),
            north: negative(down),
        },
        links: back.max(down),
    };
    fewer_links(
        fewer_links(fewer_links(forwards, east_south), west_north),
        backwards,
    )
    .way
}

// The first of two ways unless the other has fewer links.
fn fewer_links(first: Counted, other: Counted) -> Counted
    requires { CountedRight first × CountedRight other }
    ensures { (result.way ≡ nearer first.way other.way) × CountedRight result }
{
    if other.links < first.links {
        other
    } else {
        first
    }
}

// What is left of so many steps once whole turns of a ring are taken out: mostly there are none, and then nothing is divided.
fn within_ring(steps: u32, size: u32) -> u32
    requires { 0 < size }
    ensures { result ≡ steps % size }
{
    if steps < size { steps } else { steps % size }
}

// `count as i32`, of which nothing is known but its bits until a clause says so.
fn signed(count: u32) -> i32
    requires { count ≤ 11 }
    ensures { result ≡ pos count }
{
    count as i32
}

fn negative(count: u32) -> i32
    requires { count ≤ 11 }
    ensures { result ≡ neg_ℤ (pos count) }
{
    -(count as i32)
}
