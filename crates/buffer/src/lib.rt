// A mesh of routers in a lent buffer of 32-bit words: a header, then a block for each chip. docs/LAYOUT.md has the layout.
#![tactic(auto)]

mod aside;
pub mod changing;
mod chip;
mod flight;
mod grouping;
pub mod holding;
mod logged_pass;
mod logging;
pub mod looking;
pub mod moving;
mod one_pass;
pub mod opening;
mod refusing;
mod registers;
mod round_passes;
pub mod testing;
