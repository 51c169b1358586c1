// Where everything stands in the mesh buffer, in 32-bit words: the only place where an offset or a length is written as a number. The order inside a packet's words, the registers'
// and the counters' stands where these are read. docs/LAYOUT.md has the whole in a table.

// ---- the header
pub const WIDTH: usize = 0;

pub const HEIGHT: usize = 1;

// F, the rounds in a phase.
pub const ROUNDS: usize = 2;

pub const MONITOR: usize = 3;

pub const PHASE: usize = 4;

// How many rounds of the running phase are over.
pub const ELAPSED: usize = 5;

pub const HEADER: usize = 6;

// ---- a chip's block: registers, counters, six links
pub const REGISTERS: usize = 9;

pub const COUNTERS: usize = 10;

pub const COUNTERS_AT: usize = REGISTERS;

pub const LINKS_AT: usize = COUNTERS_AT + COUNTERS;

pub const CHIP: usize = LINKS_AT + 6 * LINK;

// Where each of its links begins.
pub const LINK_0: usize = LINKS_AT;

pub const LINK_1: usize = LINK_0 + LINK;

pub const LINK_2: usize = LINK_1 + LINK;

pub const LINK_3: usize = LINK_2 + LINK;

pub const LINK_4: usize = LINK_3 + LINK;

pub const LINK_5: usize = LINK_4 + LINK;

// And where each says how many packets it holds.
pub const HELD_0: usize = LINK_0 + HELD;

pub const HELD_1: usize = LINK_1 + HELD;

pub const HELD_2: usize = LINK_2 + HELD;

pub const HELD_3: usize = LINK_3 + HELD;

pub const HELD_4: usize = LINK_4 + HELD;

pub const HELD_5: usize = LINK_5 + HELD;

// ---- a directed link: its state, how many packets it holds, eight places of three words; how many are set aside, eight places for those
pub const STATE: usize = 0;

pub const HELD: usize = 1;

pub const PLACES_AT: usize = 2;

pub const PLACE: usize = 3;

pub const DEPTH: usize = 8;

pub const ASIDE: usize = PLACES_AT + DEPTH * PLACE;

pub const ASIDE_PLACES_AT: usize = ASIDE + 1;

pub const LINK: usize = ASIDE_PLACES_AT + DEPTH * PLACE;
