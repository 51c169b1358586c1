// The lines of FILE, or the records of a trace, made into calls on the mesh, each told as it is made.
#![tactic(auto)]

mod calls;
mod deliveries;
mod flooding;
mod following;
mod keeping;
mod passes;
pub mod play;
mod registers;
mod replaying;
pub mod running;
mod spent;
