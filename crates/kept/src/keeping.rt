// The error registers: the first dropped unit, and how many were dropped.
ghost use Rattle.std.specs.Prelude.{◌≡◌, ◌<◌, ◌≤◌};
ghost use Rattle.kept.specs.Keeping.{empty, is_empty, drop_count, most_units, capped, more_of, with_units, lowest, first_drop, kept_of};

use super::Registers;
use steps::Outcome;

// "Stopping at 65,535".
pub const MOST_UNITS: u32 = 65535;

// The registers after a pass. The number is stopped before the sum too: lent registers may have any, and no sum wraps.
pub fn kept_of(r: Registers, o: Outcome) -> Registers
    requires { (o.dropped < 64) × (o.leg_dropped < 64) }
    ensures { result ≡ kept_of r o }
{
    let dropped = drop_count(o);
    if dropped == 0 {
        return r;
    }
    if r.is_empty() {
        first_drop(o)
    } else {
        r.with_units(capped_units(capped_units(r.units) + dropped))
    }
}

pub fn empty_registers() -> Registers
    ensures { result ≡ empty }
{
    Registers::default()
}

pub fn drop_count(o: Outcome) -> u32
    ensures { (result ≡ drop_count o) × (result ≤ 64) }
{
    if (o.dropped == 0) & (o.leg_dropped == 0) {
        return 0;
    }
    o.dropped.count_ones() + o.leg_dropped.count_ones()
}

pub fn more_of(units: u32) -> u32
    ensures { result ≡ more_of units }
{
    u32::from(1 < units)
}

fn capped_units(n: u32) -> u32
    ensures { (result ≡ capped n) × (result ≤ most_units) }
{
    n.min(MOST_UNITS)
}

impl Registers {
    fn is_empty(self) -> bool
        ensures { result ≡ is_empty self }
    {
        self.units == 0
    }

    fn with_units(self, n: u32) -> Self
        ensures { result ≡ with_units self n }
    {
        Registers {
            more: more_of(n),
            units: n,
            ..self
        }
    }
}

fn first_drop(o: Outcome) -> Registers
    requires { (o.dropped < 64) × (o.leg_dropped < 64) }
    ensures { result ≡ first_drop o }
{
    let p = o.packet;
    let units = capped_units(drop_count(o));
    let leg = o.dropped == 0;
    let set = if leg { o.leg_dropped } else { o.dropped };
    Registers {
        control: p.control,
        word: p.word,
        payload: p.payload,
        link: lowest_link(set),
        leg: u32::from(leg),
        more: more_of(units),
        source: o.source,
        phase: o.phase,
        units,
    }
}

// The lowest link of a set that has one; 5 of an empty set.
fn lowest_link(set: u32) -> u32
    requires { set < 64 }
    ensures { result ≡ lowest set }
{
    (set | 32).trailing_zeros()
}
