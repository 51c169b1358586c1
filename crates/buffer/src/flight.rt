// How many packets are in flight.
ghost use Rattle.std.specs.Prelude.{◌≡◌, true};
ghost use Rattle.buffer.specs.Layout.{mesh_of, chips_of};
ghost use Rattle.buffer.specs.Holding.{holds_mesh};
ghost use Rattle.mesh.specs.Weights.{in_flight};
ghost use Rattle.buffer.specs.Held.{chip_flight, Few};

use links::offsets::{CHIP, HEADER, HELD_0, HELD_1, HELD_2, HELD_3, HELD_4, HELD_5};

// On the links of all chips.
pub fn in_flight(mesh: &[u32], count: usize) -> u32
    requires { (holds_mesh mesh.now ≡ true) × (count ≡ chips_of mesh.now) }
    ensures { result ≡ in_flight (mesh_of mesh.now) }
{
    let mut sum = 0;
    for i in 0..count {
        let at = HEADER + i * CHIP;
        sum += on_chip(&mesh[at..at + CHIP]);
    }
    sum
}

// On a chip's six links: the sum of their count words.
fn on_chip(chip: &[u32]) -> u32
    requires { Few chip.now }
    ensures { result ≡ chip_flight chip.now }
{
    chip[HELD_0] + chip[HELD_1] + chip[HELD_2] + chip[HELD_3] + chip[HELD_4] + chip[HELD_5]
}
