// What FILE holds beside its calls: the mesh, and the tables of its chips.
#![tactic(auto)]

pub mod board;
mod boards;
pub mod checking;
mod covering;
mod faults;
mod joining;
pub mod paths;
pub mod reading;
pub mod storing;
pub mod trees;
