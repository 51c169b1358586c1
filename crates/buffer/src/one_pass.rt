// One pass alone, at a chip of the mesh with its tables: that of the router, with the chip's own ready set.
ghost use Rattle.std.specs.Prelude.{◌≡◌};
ghost use Rattle.steps.specs.Deciding.{outcome_of};
ghost use Rattle.buffer.specs.OnePass.{setting_in, CheckedAt, MeshStep};

use super::chip::{after, ready_of};
use links::offsets::{CHIP, HEADER, HEIGHT, MONITOR, PHASE, WIDTH};
use packet::Packet;
use steps::deciding::outcome_of;
use steps::{Outcome, Setting};
use tables::lent::ChipTables;

pub fn pass_at(
    mesh: &mut [u32],
    chip: usize,
    source: u32,
    p: Packet,
    tables: &ChipTables<'_>,
) -> Outcome
    requires { CheckedAt mesh.old chip source p tables.now.codes }
    ensures value { result ≡ outcome_of p source tables.now (setting_in mesh.old chip) }
    ensures mesh_step { MeshStep mesh.old mesh.new chip result }
{
    let at = HEADER + chip * CHIP;
    let ready = ready_of(&mesh[at..at + CHIP]);
    let t = Setting {
        width: mesh[WIDTH],
        height: mesh[HEIGHT],
        monitor: mesh[MONITOR],
        phase: mesh[PHASE],
        ready,
    };
    let o = outcome_of(p, source, tables, t);
    after(&mut mesh[at..at + CHIP], o);
    o
}
