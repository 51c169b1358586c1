// Parity, and the rewriting of mark and stamp, after which it is right again.
ghost use Rattle.std.specs.Prelude.{◌≡◌, ◌%◌};
ghost use Rattle.packet.specs.Parity.{ones_of, is_odd, with_control, set_right, with_mark, with_stamp};

use super::Packet;
use super::control::{mark_in, parity_in, stamp_in};

// Whether all bits of the packet together hold an odd number of ones.
pub fn is_odd(p: Packet) -> bool
    ensures { result ≡ is_odd p }
{
    folded_ones(p) == 1
}

// The packet with a new mark, its parity bit set right.
pub fn with_mark(p: Packet, mark: u32) -> Packet
    ensures { result ≡ with_mark p mark }
{
    set_right(with_control(p, mark_in(p.control, mark)))
}

// The packet with a new stamp, its parity bit set right.
pub fn with_stamp(p: Packet, stamp: u32) -> Packet
    ensures { result ≡ with_stamp p stamp }
{
    set_right(with_control(p, stamp_in(p.control, stamp)))
}

// The three words laid over each other, and then the upper half of what is left over the lower, down to one bit. The wrong
// program `last_fold_left_out` is of its last fold, so that the library's `count_ones` does not take its place.
fn folded_ones(p: Packet) -> u32
    ensures { result ≡ ones_of p % 2 }
{
    let a = p.control ^ p.word ^ p.payload;
    let b = a ^ (a >> 16);
    let c = b ^ (b >> 8);
    let d = c ^ (c >> 4);
    let e = d ^ (d >> 2);
    (e ^ (e >> 1)) & 1
}

fn set_right(p: Packet) -> Packet
    ensures { result ≡ set_right p }
{
    let others = folded_ones(with_control(p, parity_in(p.control, 0)));
    with_control(p, parity_in(p.control, others + 1))
}

fn with_control(p: Packet, control: u32) -> Packet
    ensures { result ≡ with_control p control }
{
    Packet { control, ..p }
}
