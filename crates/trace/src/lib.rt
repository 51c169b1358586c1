// A kept trace replayed: the calls of its records, made on a mesh.
#![tactic(auto)]

mod making;
pub mod replaying;

// What a replay answers: where it stopped, and the log records added, beside a refusal too; the place is that of the call that was refused.
#[repr(C)]
#[derive(Clone, Copy)]
pub struct Replayed {
    pub refusal: u32,
    pub at: usize,
    pub added: usize,
    pub place: u32,
}
