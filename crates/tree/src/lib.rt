// A multicast tree grown from a source chip to a list of chips with processor sets, and the rows that it needs.
#![tactic(auto)]

pub mod call;
mod growing;
mod places;
mod rows;
mod targets;
mod walking;
mod ways;

// What the call answers: the refusal, and how many rows are written, over all chips.
#[repr(C)]
#[derive(Clone, Copy)]
pub struct Tree {
    pub refusal: u32,
    pub rows: u32,
}

// A way from a chip to another: signed steps east and north. It has no bound of its own, since `LeastOfAll` speaks of all pairs of numbers.
#[derive(Clone, Copy)]
struct Way {
    east: i32,
    north: i32,
}

// A way, and how many links it has.
#[derive(Clone, Copy)]
struct Counted {
    way: Way,
    links: u32,
}

// A way's links in order: diagonal ones up to `shared`, then those east or west up to `turn`, then those north or south up to `end`.
#[derive(Clone, Copy)]
struct Legs {
    shared: usize,
    turn: usize,
    end: usize,
    diagonal: u32,
    sideways: u32,
    upright: u32,
}

// The part of a way that is still to be added: it leaves `chip` by the link at place `at`.
#[derive(Clone, Copy)]
struct Rest {
    chip: u32,
    at: usize,
}
