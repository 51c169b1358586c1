// What the one-router call shows of a pass.
ghost use Rattle.std.specs.Prelude.{◌≡◌, cond, eqb, ◌<◌};
ghost use Rattle.packet.specs.Bytes.{nothing};
ghost use Rattle.router.specs.Showing.{on_leg, to_processors, packets_of, pass_shown};
ghost use Rattle.kept.specs.Counting.{zeros, counted_of};
ghost use Rattle.steps.specs.Deciding.{no_outcome};

use super::Pass;
use kept::Counters;
use kept::counting::counted_of;
use kept::keeping::{empty_registers, kept_of};
use packet::Packet;
use steps::Outcome;
use steps::deciding::{leg_packet, packet_on};
use steps::errors::flag_of;

// All that a pass did, its registers and counters begun from zeros; or, of a pass that was refused, the number and the
// place of the refusal and zeros. What needs most room to be worked out comes first, what is mostly zeros last.
pub fn shown(refusal: u32, place: u32, o: Outcome) -> Pass
    requires { (o ≡ cond (eqb refusal 0) o no_outcome) × ((o.sent < 64) × ((o.dropped < 64) × (o.leg_dropped < 64))) }
    ensures { result ≡ pass_shown refusal place o }
{
    let packets = packets_of(o);
    let leg = on_leg(o);
    let delivered = to_processors(o);
    let counters = counts_shown(refusal, o);
    let registers = kept_of(empty_registers(), o);
    Pass {
        refusal,
        errors: o.errors,
        wanted: o.wanted,
        sent: o.sent,
        dropped: o.dropped,
        leg_sent: o.leg_sent,
        leg_dropped: o.leg_dropped,
        processors: o.wanted / 64,
        delivered,
        packets,
        leg,
        registers,
        counters,
        place,
    }
}

// Of a pass that did not take place, all but two of the counts are 0 as it is: no need to choose between two lists of ten.
fn counts_shown(refusal: u32, o: Outcome) -> Counters
    requires { (o ≡ cond (eqb refusal 0) o no_outcome) × (o.sent < 64) }
    ensures { result ≡ cond (eqb refusal 0) (counted_of zeros o) zeros }
{
    let c = counted_of(no_counts(), o);
    let passes = flag_of(refusal == 0, c.count[0]);
    let swallowed = flag_of(refusal == 0, c.count[8]);
    Counters {
        count: [
            passes, c.count[1], c.count[2], c.count[3], c.count[4], c.count[5], c.count[6],
            c.count[7], swallowed, c.count[9],
        ],
    }
}

// Ten zeros, said of the whole: what is derived says it of each.
fn no_counts() -> Counters
    ensures { result ≡ zeros }
{
    Counters { count: [0; 10] }
}

fn no_packet() -> Packet
    ensures { result ≡ nothing }
{
    Packet {
        control: 0,
        nine: 0,
        word: 0,
        payload: 0,
    }
}

// What each link sends, and zeros where it sends nothing: the links that send are gone through, lowest first. Six calls in an array, one a link,
// made a pass a quarter longer.
fn packets_of(o: Outcome) -> [Packet; 6]
    requires { o.sent < 64 }
    ensures { result ≡ packets_of o }
{
    let none = no_packet();
    let mut packets = [none; 6];
    let mut rest = o.sent;
    while rest != 0 {
        let i = u32::trailing_zeros(rest);
        packets[i as usize] = packet_on(o, i);
        rest = rest & (rest - 1);
    }
    packets
}

fn on_leg(o: Outcome) -> Packet
    ensures { result ≡ on_leg o }
{
    if o.leg_sent == 0 {
        no_packet()
    } else {
        leg_packet(o)
    }
}

fn to_processors(o: Outcome) -> Packet
    ensures { result ≡ to_processors o }
{
    only(64 <= o.wanted, o.packet)
}

// Number by number, so that no branch is needed.
fn only(kept: bool, p: Packet) -> Packet
    ensures { result ≡ cond kept p nothing }
{
    Packet {
        control: flag_of(kept, p.control),
        nine: flag_of(kept, p.nine),
        word: flag_of(kept, p.word),
        payload: flag_of(kept, p.payload),
    }
}
