// The tables that a caller lends: MC rows and the search through them, P2P codes, and what makes them acceptable.
#![tactic(auto)]

pub mod accept;
pub mod codes;
pub mod lent;
pub mod places;
pub mod search;
pub mod size;

// One row of an MC table, where a caller keeps its table in structs.
#[repr(C)]
#[derive(Clone, Copy)]
pub struct Row {
    pub key: u32,
    pub mask: u32,
    pub route: u32,
}

// What a search through row structs answers: whether a row matches, its number, its route; zeros where none does. The C interface needs this
// form, with a flag.
#[repr(C)]
#[derive(Clone, Copy, Default)]
pub struct RowFound {
    pub found: u32,
    pub row: u32,
    pub route: u32,
}
