// Joining, the topmost pair first, with a place above which no two neighbours make a pair.
ghost use Rattle.std.specs.Prelude.{◌≡◌, ◌+◌, ◌<◌};
ghost use Rattle.fewer.specs.Process.{pair};
ghost use Rattle.fewer.specs.Hand.{numbered_of, joined_of, AtPairs, WentPast, JoinedAll};

use super::taking_out::take_out_under;
use super::{Held, Pairs};

// How many rows are left where neither taking out nor joining can be done, of `count` rows of which none goes.
pub fn join_all(held: &mut [Held], gone: &mut [u32], count: usize) -> usize
    requires { AtPairs held.old gone.old (record { rows = count; at = 0 }) }
    ensures { JoinedAll held.old gone.old count held.new gone.new result }
{
    let mut pairs = Pairs { rows: count, at: 0 };
    // The place goes back as well as on, and the rows become fewer: no range counts it.
    while pairs.at + 1 < pairs.rows {
        pairs = past_one(held, gone, pairs);
    }
    pairs.rows
}

// Past two neighbours that are no pair; or with them joined, one place back, where the joined row has a new neighbour.
fn past_one(held: &mut [Held], gone: &mut [u32], pairs: Pairs) -> Pairs
    requires { (AtPairs held.old gone.old pairs) × (pairs.at + 1 < pairs.rows) }
    ensures { (AtPairs held.new gone.new result) × (WentPast held.old gone.old pairs held.new gone.new result) }
{
    let at = pairs.at;
    let count = pairs.rows;
    let upper = held[at];
    let lower = held[at + 1];
    if !upper.makes_pair_with(lower) {
        return Pairs {
            rows: count,
            at: at + 1,
        };
    }
    held[at] = upper.joined_to(lower);
    let listed = gone.len() - count;
    gone[listed] = lower.number;
    Pairs {
        rows: take_out_under(held, gone, at, count),
        at: at.saturating_sub(1),
    }
}

impl Held {
    fn makes_pair_with(self, lower: Held) -> bool
        ensures { result ≡ pair (numbered_of self).entry (numbered_of lower).entry }
    {
        let apart = self.key ^ lower.key;
        (self.mask == lower.mask)
            & (self.route == lower.route)
            & (u32::count_ones(apart) == 1)
            & ((apart & self.mask) == apart)
    }

    // One row of a pair, under the upper's number.
    fn joined_to(self, lower: Held) -> Held
        ensures { numbered_of result ≡ joined_of (numbered_of self) (numbered_of lower) }
    {
        Held {
            key: self.key & lower.key,
            mask: self.mask ^ (self.key ^ lower.key),
            ..self
        }
    }
}
