// P2P codes for a whole mesh by flooding: from the state of every directed link, the lowest link that begins a way of fewest links.
#![tactic(auto)]

mod around;
pub mod flooding;
mod marking;
