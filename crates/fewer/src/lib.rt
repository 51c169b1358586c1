// A table with fewer rows that gives every key the same route.
#![tactic(auto)]

pub mod call;
mod hand;
mod joining;
mod taking_out;

// What the call answers: the refusal, how many rows are left, how many numbers are listed, and the row for refusal 17.
#[repr(C)]
#[derive(Clone, Copy)]
pub struct Fewer {
    pub refusal: u32,
    pub rows: u32,
    pub gone: u32,
    pub place: u32,
}

// A row in hand, with the number that it first had.
#[derive(Clone, Copy)]
struct Held {
    key: u32,
    mask: u32,
    route: u32,
    number: u32,
}

// A walk down the rows in hand: of `count` rows it has come to row `next` and kept the first `kept`.
#[derive(Clone, Copy)]
struct Walk {
    kept: usize,
    next: usize,
    count: usize,
}

// The rows in hand, and a place above which no two neighbours make a pair.
#[derive(Clone, Copy)]
struct Pairs {
    rows: usize,
    at: usize,
}
