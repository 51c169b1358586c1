// What a pass does with a packet: the steps put together.
ghost use Rattle.std.specs.Prelude.{◌≡◌, ◌<◌};
ghost use Rattle.steps.specs.Links.{has};
ghost use Rattle.steps.specs.Deciding.{has_leg, leg_set, decided, no_outcome, outcome_of, mark_on, packet_on, leg_packet, Checked};

use super::detour::{carry_set, drop_set, plain_drop_set, plain_send_set, send_set};
use super::errors::{errors_of, stamped_of};
use super::wants::{bit, by_rows, looked_up, wanted_given};
use super::{Outcome, Setting, Wanted};
use packet::Packet;
use packet::control::{is_marked, mark_of};
use packet::parity::with_mark;
use tables::lent::ChipTables;

// The pass itself, for inputs that have been checked.
pub fn outcome_of(p: Packet, source: u32, tables: &ChipTables<'_>, t: Setting) -> Outcome
    requires { Checked p source tables.now t }
    ensures { result ≡ outcome_of p source tables.now t }
{
    let errors = errors_of(p, source, t.phase);
    let stamped = stamped_of(p, source, errors, t.phase);
    let goes = by_rows(errors, p.control);
    let found = looked_up(goes, p.word, tables.rows());
    let wanted = wanted_given(errors, p, source, found, tables, t);
    decide(errors, stamped, source, t.phase, wanted, t.ready)
}

// What a pass that does not take place does.
pub fn no_outcome() -> Outcome
    ensures { result ≡ no_outcome }
{
    Outcome::default()
}

// What link i sends in step 5 or 7.
pub fn packet_on(o: Outcome, i: u32) -> Packet
    requires { i < 6 }
    ensures { result ≡ packet_on o i }
{
    let p = o.packet;
    if is_marked(p.control) {
        with_mark(p, mark_on(o, i))
    } else {
        p
    }
}

// What the second leg's link sends.
pub fn leg_packet(o: Outcome) -> Packet
    ensures { result ≡ leg_packet o }
{
    let p = o.packet;
    with_mark(p, 3)
}

pub fn has_link(set: u32, i: u32) -> bool
    requires { i < 6 }
    ensures { result ≡ has set i }
{
    (set >> i) % 2 == 1
}

// Steps 4 to 7.
pub fn decide(errors: u32, p: Packet, source: u32, phase: u32, w: Wanted, ready: u32) -> Outcome
    requires { (source < 8) × (ready < 64) }
    ensures { result ≡ decided errors p source phase w ready }
{
    let leg = leg_set(errors, p, source);
    let links = w.set % 64;
    let (sent, carried, dropped) = if is_marked(p.control) {
        (
            send_set(links, ready),
            carry_set(links, ready),
            drop_set(links, ready),
        )
    } else {
        (
            plain_send_set(links, ready),
            0,
            plain_drop_set(links, ready),
        )
    };
    Outcome {
        source,
        errors,
        packet: p,
        wanted: w.set,
        missed: w.missed,
        sent,
        carried,
        dropped,
        leg_sent: plain_send_set(leg, ready),
        leg_dropped: plain_drop_set(leg, ready),
        phase,
    }
}

fn mark_on(o: Outcome, i: u32) -> u32
    requires { i < 6 }
    ensures { result ≡ mark_on o i }
{
    if has_link(o.carried, i) {
        if has_link(o.wanted % 64, i) { 1 } else { 2 }
    } else {
        0
    }
}

fn has_leg(errors: u32, p: Packet) -> bool
    ensures { result ≡ has_leg errors p }
{
    is_marked(p.control) && (errors == 0) & matches!(mark_of(p.control), 1 | 2)
}

fn leg_set(errors: u32, p: Packet, source: u32) -> u32
    requires { source < 8 }
    ensures { (result ≡ leg_set errors p source) × (result < 64) }
{
    if has_leg(errors, p) {
        bit((source + 5) % 6)
    } else {
        0
    }
}
