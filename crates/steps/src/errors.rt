// The errors of a packet, and the stamping of a local one.
ghost use Rattle.std.specs.Prelude.{◌≡◌, ◌+◌, ◌≤◌};
ghost use Rattle.steps.specs.Errors.{too_old, wrong_length, bad_local, flag, errors_of, stamped_of};

use packet::Packet;
use packet::control::{carries_of, is_marked, is_stamped, mark_of, stamp_of};
use packet::parity::{is_odd, with_stamp};

pub fn errors_of(p: Packet, source: u32, phase: u32) -> u32
    requires { phase ≤ 3 }
    ensures { (result ≡ errors_of p source phase) × (result ≤ 15) }
{
    u32::from(!is_odd(p)) + flag_of(wrong_length(p), 4) + source_errors(p.control, source, phase)
}

pub fn stamped_of(p: Packet, source: u32, errors: u32, phase: u32) -> Packet
    ensures { result ≡ stamped_of p source errors phase }
{
    if (errors == 0) & (source == 7) & is_stamped(p.control) {
        with_stamp(p, phase)
    } else {
        p
    }
}

// A number where something is so, else 0: `u32::from(b) * n` says it no plainer.
pub fn flag_of(b: bool, n: u32) -> u32
    ensures { (result ≡ flag b n) × (result ≤ n) }
{
    if b { n } else { 0 }
}

// The errors that only a local packet, or only one from a link, can show.
fn source_errors(control: u32, source: u32, phase: u32) -> u32
    requires { phase ≤ 3 }
    ensures { (result ≡ flag (too_old control source phase) 2 + flag (bad_local control source) 8) × (result ≤ 8) }
{
    if source < 6 {
        flag_of(too_old(control, source, phase), 2)
    } else {
        flag_of(bad_local(control, source), 8)
    }
}

fn too_old(control: u32, source: u32, phase: u32) -> bool
    requires { phase ≤ 3 }
    ensures { result ≡ too_old control source phase }
{
    (source < 6) & is_stamped(control) & (stamp_of(control) == 3 - phase)
}

fn wrong_length(p: Packet) -> bool
    ensures { result ≡ wrong_length p }
{
    carries_of(p.control) != p.nine
}

fn bad_local(control: u32, source: u32) -> bool
    ensures { result ≡ bad_local control source }
{
    (source == 7) & is_marked(control) & (mark_of(control) != 0)
}
