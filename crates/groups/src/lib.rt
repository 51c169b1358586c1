// Rows in groups by the top byte of the key, in lent room, and the search through the group of a key: the second engine beside the plain search of `tables`.
#![tactic(auto)]

mod asking;
mod building;
pub mod grouping;
pub mod lending;
pub mod paying;
pub mod searching;
mod top;
