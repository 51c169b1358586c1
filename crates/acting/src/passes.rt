// One pass of a packet at a chip, in words: what matched, what is sent with which mark, what is handed over or dropped.
use super::calls::first_bytes;
use super::deliveries::{Errors, Processors};
use super::play::Play;
use super::spent::{Spent, has};
use buffer::looking::look_mesh;
use packet::Packet;
use packet::bytes::bytes_of;
use packet::control::{is_fixed, mark_of};
use router::Pass;
use router::call::pass;
use script::cells::between;
use script::names::link_name;
use std::{fmt, io};
use steps::Setting;
use tables::lent::ChipTables;
use tables::search::first_match;

// What a pass takes as the source of a packet that is local.
const LOCAL: u32 = 7;

// A packet that comes to a chip in a round: by a link, or it is local. What the chip has sent in that round before.
#[derive(Clone, Copy)]
pub struct Arrival {
    pub round: u64,
    pub chip: u32,
    pub source: Option<u32>,
    pub packet: Packet,
    pub spent: Spent,
}

impl<'a> Play<'a> {
    // Tells the pass of a packet at a chip, and answers what the chip has sent in this round after it.
    pub fn tell_pass(&self, a: Arrival) -> io::Result<Spent> {
        let own = self.sheet.rows_of(a.chip);
        let outcome = Outcome {
            pass: self.pass_at(&a, own),
            mark: mark_of(a.packet.control),
        };
        let Arrival { round, chip, .. } = a;
        let place = self.course.board.place(chip);
        let way = Way(a.source);
        let decided = Decided::of(&a, own, outcome.pass.errors);
        println!(self.rt; "round {round}  chip {place}{way}{decided}{outcome}")?;
        Ok(a.spent.after(outcome.pass.sent, outcome.pass.leg_sent))
    }

    // The pass as the one-router call makes it.
    fn pass_at(&self, a: &Arrival, own: &[u32]) -> Pass {
        let b = self.course.board;
        let mesh = &self.memory.mesh;
        let sheet = &*self.sheet;
        let packed = bytes_of(a.packet);
        let all = b.chips() as usize;
        let from = (a.chip as usize).wrapping_mul(all);
        let t = Setting {
            width: b.width,
            height: b.height,
            monitor: b.monitor,
            phase: look_mesh(mesh).phase,
            ready: a.spent.ready_set(a.chip, mesh),
        };
        let codes = between(sheet.codes(), from, from.wrapping_add(all));
        pass(
            first_bytes(&packed.bytes, packed.length),
            a.source.unwrap_or(LOCAL),
            &ChipTables::new(own, codes, sheet.route(a.chip)),
            t,
            0,
        )
    }
}

// How a packet came.
#[derive(Clone, Copy)]
struct Way(Option<u32>);

impl fmt::Display for Way {
    fn fmt<W: fmt::Write>(&self, f: &mut fmt::Formatter<W>) -> fmt::Result {
        match self.0 {
            Some(link) => write!(f, "  in by {}", link_name(link)),
            None => f.write_str("  local"),
        }
    }
}

// What decides where a packet goes.
#[derive(Clone, Copy)]
enum Decided {
    // A packet in error goes nowhere.
    Wrong(Errors),
    Detour,
    FixedRoute,
    // The row that takes the key.
    Row(usize),
    Default,
    Monitor,
}

impl Decided {
    // A packet in error asks no row, nor does one marked 10, nor a fixed-route packet.
    fn of(a: &Arrival, rows: &[u32], errors: u32) -> Decided {
        let control = a.packet.control;
        if errors != 0 {
            return Decided::Wrong(Errors(errors));
        }
        if mark_of(control) == 2 {
            return Decided::Detour;
        }
        if is_fixed(control) {
            return Decided::FixedRoute;
        }
        match (first_match(rows, a.packet.word), a.source) {
            (Some(n), _) => Decided::Row(n),
            (None, Some(_)) => Decided::Default,
            (None, None) => Decided::Monitor,
        }
    }
}

impl fmt::Display for Decided {
    fn fmt<W: fmt::Write>(&self, f: &mut fmt::Formatter<W>) -> fmt::Result {
        match self {
            Decided::Wrong(errors) => write!(f, "{errors}"),
            Decided::Detour => f.write_str("  on its detour"),
            Decided::FixedRoute => f.write_str("  fixed route"),
            Decided::Row(n) => write!(f, "  row {n}"),
            Decided::Default => f.write_str("  default"),
            Decided::Monitor => f.write_str("  no row: to the monitor"),
        }
    }
}

// What came of the pass of a packet with a mark.
#[derive(Clone, Copy)]
struct Outcome {
    pass: Pass,
    mark: u32,
}

impl Outcome {
    // Whether the wanted set is swallowed. A packet in error has none, nor has one marked 10.
    fn is_swallowed(&self) -> bool {
        self.pass.errors == 0 && self.mark != 2 && self.pass.wanted == 0
    }
}

impl fmt::Display for Outcome {
    fn fmt<W: fmt::Write>(&self, f: &mut fmt::Formatter<W>) -> fmt::Result {
        let o = &self.pass;
        for link in 0..6 {
            if has(o.sent, link) {
                write!(f, "{}", Sent::of(link, o.packets[link as usize]))?;
            }
        }
        if o.leg_sent != 0 {
            write!(f, "{}", Sent::of(o.leg_sent.trailing_zeros(), o.leg))?;
        }
        write!(
            f,
            "{}{}",
            Dropped::of("", o.dropped),
            Dropped::of("second leg ", o.leg_dropped)
        )?;
        if self.is_swallowed() {
            f.write_str("  swallowed")?;
        }
        if o.processors != 0 {
            write!(f, " {}", Processors(o.processors))?;
        }
        Ok(())
    }
}

// A packet that is sent by a link, by its mark.
#[derive(Clone, Copy)]
struct Sent {
    link: u32,
    mark: u32,
}

impl Sent {
    fn of(link: u32, p: Packet) -> Sent {
        Sent {
            link,
            mark: mark_of(p.control),
        }
    }
}

impl fmt::Display for Sent {
    fn fmt<W: fmt::Write>(&self, f: &mut fmt::Formatter<W>) -> fmt::Result {
        let what = match self.mark {
            0 => "normal",
            1 => "with a detour's copy",
            2 => "detour",
            _ => "second leg",
        };
        write!(f, "  out by {}: {what}", link_name(self.link))
    }
}

// The links at which a packet, or its second leg, is dropped.
#[derive(Clone, Copy)]
struct Dropped<'a> {
    what: &'a str,
    links: u32,
}

impl<'a> Dropped<'a> {
    fn of(what: &'a str, links: u32) -> Dropped<'a> {
        Dropped { what, links }
    }
}

impl<'a> fmt::Display for Dropped<'a> {
    fn fmt<W: fmt::Write>(&self, f: &mut fmt::Formatter<W>) -> fmt::Result {
        for link in 0..6 {
            if has(self.links, link) {
                write!(f, "  {}dropped at {}", self.what, link_name(link))?;
            }
        }
        Ok(())
    }
}
