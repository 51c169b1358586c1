// One directed link of a mesh: its words, its state and readiness, what is sent on it, where it leads; and the phase that passes on it see.
#![tactic(auto)]

pub mod across;
pub mod link;
pub mod offsets;
pub mod phase;
