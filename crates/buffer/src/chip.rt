// One chip, as the words that hold it: registers, counters, six links.
ghost use Rattle.std.specs.Prelude.{◌≡◌, ◌<◌, ◌≤◌, length, slice_index};
ghost use Rattle.steps.specs.Deciding.{packet_on, leg_packet};
ghost use Rattle.kept.specs.Keeping.{kept_of};
ghost use Rattle.kept.specs.Counting.{counted_of};
ghost use Rattle.links.specs.Offsets.{held_at, registers_long, counters_long, chip_long};
ghost use Rattle.links.specs.LinkWords.{pushed};
ghost use Rattle.links.specs.Link.{ready_links};
ghost use Rattle.buffer.specs.Layout.{registers_in, register_words, chip_in};
ghost use Rattle.buffer.specs.ChipWords.{changed_on, link_words, pushing, PushFits, sending, Takes, ChipStep, ChangedBut, among};

use super::registers::{put_registers, registers_at};
use kept::Counters;
use kept::counting::{counted_of, only_sends, sent_count};
use kept::keeping::kept_of;
use links::link::{is_ready, push};
use links::offsets::{
    CHIP, COUNTERS_AT, LINK, LINK_0, LINK_1, LINK_2, LINK_3, LINK_4, LINK_5, LINKS_AT, REGISTERS,
};
use packet::Packet;
use std::num::wrapping_add_u32;
use steps::Outcome;
use steps::deciding::{leg_packet, packet_on};
use steps::errors::flag_of;

// The links that are ready now.
pub fn ready_of(chip: &[u32]) -> u32
    requires { length chip.now ≡ chip_long }
    ensures { result ≡ ready_links (chip_in chip.now).links }
{
    flag_of(is_ready(&chip[LINK_0..LINK_1]), 1)
        + flag_of(is_ready(&chip[LINK_1..LINK_2]), 2)
        + flag_of(is_ready(&chip[LINK_2..LINK_3]), 4)
        + flag_of(is_ready(&chip[LINK_3..LINK_4]), 8)
        + flag_of(is_ready(&chip[LINK_4..LINK_5]), 16)
        + flag_of(is_ready(&chip[LINK_5..CHIP]), 32)
}

// The chip after a pass: registers, counters, and what its links send.
pub fn after(chip: &mut [u32], o: Outcome)
    requires { Takes chip.old o }
    ensures { ChipStep chip.old chip.new o }
{
    keep(&mut chip[0..REGISTERS], o);
    count(&mut chip[COUNTERS_AT..LINKS_AT], o);
    send_all(chip, o);
}

// The packets of step 5 or 7 first, then the second leg.
fn send_all(chip: &mut [u32], o: Outcome)
    requires { Takes chip.old o }
    ensures { ChangedBut (sending o) (among 0) chip.old chip.new }
{
    send_packets(chip, o);
    send_legs(chip, o);
}

// Only the links that send are gone through, lowest first: a set's bits are taken out one by one, and no index is counted.
fn send_packets(chip: &mut [u32], o: Outcome)
    requires { PushFits o.sent chip.old }
    ensures { ChangedBut (pushing o.sent (packet_on o)) (among 0) chip.old chip.new }
{
    let mut rest = o.sent;
    while rest != 0 {
        let i = u32::trailing_zeros(rest);
        push_on(chip, i, packet_on(o, i));
        rest = rest & (rest - 1);
    }
}

// A loop of its own, as above, so that a pass without a second leg does not work out its packet.
fn send_legs(chip: &mut [u32], o: Outcome)
    requires { PushFits o.leg_sent chip.old }
    ensures { ChangedBut (pushing o.leg_sent (λ _. leg_packet o)) (among 0) chip.old chip.new }
{
    let mut rest = o.leg_sent;
    while rest != 0 {
        let i = u32::trailing_zeros(rest);
        push_on(chip, i, leg_packet(o));
        rest = rest & (rest - 1);
    }
}

// Puts a packet on link i.
fn push_on(chip: &mut [u32], i: u32, p: Packet)
    requires { (length chip.old ≡ chip_long) × ((i < 6) × (slice_index (link_words i chip.old) held_at ≤ 7)) }
    ensures { chip.new ≡ changed_on (λ _ w. pushed w p) chip.old i }
{
    let at = LINKS_AT + (i as usize) * LINK;
    push(&mut chip[at..at + LINK], p);
}

// Keeps a pass's first dropped unit, and counts all of them, in the nine words of the registers.
fn keep(words: &mut [u32], o: Outcome)
    requires { (length words.old ≡ registers_long) × ((o.dropped < 64) × (o.leg_dropped < 64)) }
    ensures { words.new ≡ register_words (kept_of (registers_in words.old) o) }
{
    if (o.dropped == 0) & (o.leg_dropped == 0) {
        return;
    }
    let k = kept_of(registers_at(words), o);
    put_registers(words, k);
}

// Counts a pass in the ten words of the counters.
fn count(words: &mut [u32], o: Outcome)
    requires { (length words.old ≡ counters_long) × (o.sent < 64) }
    ensures { words.new ≡ (counted_of (record { count = words.old }) o).count }
{
    if only_sends(o) {
        let passes = wrapping_add_u32(words[0], 1);
        let sent = wrapping_add_u32(words[5], sent_count(o));
        let missed = wrapping_add_u32(words[9], o.missed);
        words[0] = passes;
        words[5] = sent;
        words[9] = missed;
        return;
    }
    count_all(words, o);
}

fn count_all(words: &mut [u32], o: Outcome)
    requires { (length words.old ≡ counters_long) × (o.sent < 64) }
    ensures { words.new ≡ (counted_of (record { count = words.old }) o).count }
{
    let c = Counters {
        count: [
            words[0], words[1], words[2], words[3], words[4], words[5], words[6], words[7],
            words[8], words[9],
        ],
    };
    let k = counted_of(c, o);
    words[0] = k.count[0];
    words[1] = k.count[1];
    words[2] = k.count[2];
    words[3] = k.count[3];
    words[4] = k.count[4];
    words[5] = k.count[5];
    words[6] = k.count[6];
    words[7] = k.count[7];
    words[8] = k.count[8];
    words[9] = k.count[9];
}
