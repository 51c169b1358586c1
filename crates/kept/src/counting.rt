// The ten counters of a chip.
ghost use Rattle.std.specs.Prelude.{◌≡◌, ◌<◌, true};
ghost use Rattle.kept.specs.Counting.{delivered, swallows, swallowed, sent_count, counts_of, only_sent, counted_of};

use super::Counters;
use super::keeping::drop_count;
use packet::control::{is_marked, mark_of};
use steps::Outcome;

// The counters after a pass.
pub fn counted_of(c: Counters, o: Outcome) -> Counters
    requires { o.sent < 64 }
    ensures { result ≡ counted_of c o }
{
    let e = o.errors;
    Counters {
        count: [
            c.count[0].wrapping_add(1),
            c.count[1].wrapping_add(e % 2),
            c.count[2].wrapping_add(e / 2 % 2),
            c.count[3].wrapping_add(e / 4 % 2),
            c.count[4].wrapping_add(e / 8 % 2),
            c.count[5].wrapping_add(sent_count(o)),
            c.count[6].wrapping_add(delivered_count(o)),
            c.count[7].wrapping_add(drop_count(o)),
            c.count[8].wrapping_add(swallowed_count(o)),
            c.count[9].wrapping_add(o.missed),
        ],
    }
}

// Whether a pass shows no error, and delivers, drops and swallows nothing, as most passes of a round: three counters are then all that changes.
pub fn only_sends(o: Outcome) -> bool
    ensures { result ≡ true → counts_of o ≡ only_sent o }
{
    (o.errors == 0) & (o.dropped == 0) & (o.leg_dropped == 0) & (o.wanted != 0) & (o.wanted < 64)
}

pub fn sent_count(o: Outcome) -> u32
    requires { o.sent < 64 }
    ensures { result ≡ sent_count o }
{
    o.sent.count_ones() + o.leg_sent.count_ones()
}

fn delivered_count(o: Outcome) -> u32
    ensures { result ≡ delivered o }
{
    if o.errors != 0 {
        return 0;
    }
    if o.wanted < 64 {
        return 0;
    }
    (o.wanted / 64).count_ones()
}

fn swallowed_count(o: Outcome) -> u32
    ensures { result ≡ swallowed o }
{
    u32::from(swallows_pass(o))
}

fn swallows_pass(o: Outcome) -> bool
    ensures { result ≡ swallows o }
{
    let p = o.packet;
    (o.errors == 0) & (o.wanted == 0) & !(is_marked(p.control) & (mark_of(p.control) == 2))
}
