// The account of units at the end of a run, and the picture of the mesh that shows it.
#![tactic(auto)]

pub mod account;
mod legend;
pub mod picture;
mod svg;
