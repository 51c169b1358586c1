// The error registers in a struct that the caller lends and keeps.
ghost use Rattle.std.specs.Prelude.{◌≡◌, ◌<◌};
ghost use Rattle.kept.specs.Keeping.{kept_of};

use super::Registers;
use super::keeping::kept_of;
use steps::Outcome;

// What `kept_of` makes of the lent registers stands in their place.
pub fn keep(r: &mut Registers, o: Outcome)
    requires { (o.dropped < 64) × (o.leg_dropped < 64) }
    ensures { r.new ≡ kept_of r.old o }
{
    *r = kept_of(*r, o);
}
