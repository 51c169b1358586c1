// How much memory the largest mesh takes.

// Chips, and rows of a chip.
pub const CHIPS: usize = 144;

pub const DEEP: usize = 1024;

pub const DEEP_WORDS: usize = 3072;

// Three words a row, one start more than chips, a code of each chip for each.
pub const ROWS: usize = 442368;

pub const STARTS: usize = 145;

pub const CODES: usize = 20736;

// A mesh buffer, and a log of six words for each packet that can be in flight.
pub const WORDS: usize = 46806;

pub const LOG: usize = 41472;

// The lowest route bit that names neither a link nor a processor.
const LEAST_BAD: u32 = 26;

// The lowest bit above 25 that a route has.
pub fn bad_bit(route: u32) -> u32 {
    LEAST_BAD + u32::trailing_zeros(route >> LEAST_BAD)
}
