// What the lab's program tells in words, how far its run has come, and the records of a trace.
#![tactic(auto)]

pub mod course;
pub mod placing;
pub mod records;
pub mod telling;
#[cfg(test)]
mod tests;
