// A way's links: diagonal links first, then east or west, then north or south.
ghost use Rattle.std.specs.Prelude.{◌≡◌};
ghost use Rattle.tree.specs.Walking.{Small, legs_of, link_at};

use super::{Legs, Way};

impl Way {
    pub fn legs(self) -> Legs
        requires { Small self }
        ensures { result ≡ legs_of self }
    {
        let east = self.east < 0;
        let north = self.north < 0;
        let turn = self.east.unsigned_abs() as usize;
        let upwards = self.north.unsigned_abs() as usize;
        let shared = if east == north { turn.min(upwards) } else { 0 };
        Legs {
            shared,
            turn,
            end: turn + upwards - shared,
            diagonal: if east { 4 } else { 1 },
            sideways: if east { 3 } else { 0 },
            upright: if north { 5 } else { 2 },
        }
    }
}

impl Legs {
    // The link at a place of a way.
    pub fn link_at(self, j: usize) -> u32
        ensures { result ≡ link_at self j }
    {
        if j < self.shared {
            self.diagonal
        } else if j < self.turn {
            self.sideways
        } else {
            self.upright
        }
    }
}
