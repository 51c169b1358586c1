// What stands at the end of a run: the chips that dropped, swallowed or missed, and the account over all chips.
use buffer::looking::{look_flight, read_counter};
use packet::control::{is_marked, mark_of};
use report::course::Course;
use report::telling::unless_refused;
use sheet::board::WORDS;
use std::{fmt, io};

// A chip's counters that are told, by their numbers in the rules.
#[derive(Clone, Copy)]
pub enum Counter {
    Parity = 1,
    Age = 2,
    Length = 3,
    BadLocal = 4,
    Delivered = 6,
    Dropped = 7,
    Swallowed = 8,
    Missed = 9,
}

// Packets injected, and the units over all chips.
#[derive(Clone, Copy)]
pub struct Account {
    injected: u64,
    delivered: u64,
    errors: u64,
    dropped: u64,
    swallowed: u64,
    flying: u64,
}

impl Account {
    pub fn of(c: &Course, mesh: &[u32; WORDS]) -> Account {
        let mut account = Account {
            injected: c.injected,
            delivered: 0,
            errors: c.errors,
            dropped: 0,
            swallowed: 0,
            flying: 0,
        };
        for chip in 0..c.board.chips() {
            account = account.with_chip(mesh, chip);
        }
        account
    }

    fn with_chip(self, mesh: &[u32; WORDS], chip: u32) -> Account {
        let more = |units: u64, counter| units.wrapping_add(u64::from(counted(
            mesh, chip, counter,
        )));
        Account {
            delivered: more(self.delivered, Counter::Delivered),
            dropped: more(self.dropped, Counter::Dropped),
            swallowed: more(self.swallowed, Counter::Swallowed),
            flying: self.flying.wrapping_add(flying_from(mesh, chip)),
            ..self
        }
    }

    // How many units are more than the packets injected.
    fn branches(&self) -> u64 {
        self.delivered
            .wrapping_add(self.errors)
            .wrapping_add(self.dropped)
            .wrapping_add(self.swallowed)
            .wrapping_add(self.flying)
            .wrapping_sub(self.injected)
    }
}

impl fmt::Display for Account {
    fn fmt<W: fmt::Write>(&self, f: &mut fmt::Formatter<W>) -> fmt::Result {
        write!(
            f,
            "account: {} injected + {} branches = {} delivered + {} in error + ",
            self.injected,
            self.branches(),
            self.delivered,
            self.errors
        )?;
        write!(
            f,
            "{} dropped + {} swallowed + {} in flight",
            self.dropped, self.swallowed, self.flying
        )
    }
}

pub fn tell_account(rt: &HostRuntime, c: &Course, mesh: &[u32; WORDS]) -> io::Result<()> {
    for chip in 0..c.board.chips() {
        tell_losses(rt, c, mesh, chip)?;
    }
    println!(rt; "{}", Account::of(c, mesh))
}

// What a chip lost, if it lost something.
fn tell_losses(rt: &HostRuntime, c: &Course, mesh: &[u32; WORDS], chip: u32) -> io::Result<()> {
    let dropped = counted(mesh, chip, Counter::Dropped);
    let swallowed = counted(mesh, chip, Counter::Swallowed);
    let missed = counted(mesh, chip, Counter::Missed);
    if dropped | swallowed | missed == 0 {
        return Ok(());
    }
    let place = c.board.place(chip);
    println!(rt; "chip {place}: dropped {dropped}, swallowed {swallowed}, local misses {missed}")
}

pub fn counted(mesh: &[u32; WORDS], chip: u32, counter: Counter) -> u32 {
    read_counter(mesh, chip, counter as u32).count
}

// The units in flight on a chip's six links, which hold up to eight packets each.
fn flying_from(mesh: &[u32; WORDS], chip: u32) -> u64 {
    (0..48)
        .map(|n| weight_at(mesh, chip, n / 8, n % 8))
        .fold(0u64, |all, weight| all.wrapping_add(weight))
}

// The weight of the packet at a place of a link, 0 the oldest: two for one marked 01 that is MC or fixed-route, none where there is no packet.
fn weight_at(mesh: &[u32; WORDS], chip: u32, link: u32, place: u32) -> u64 {
    let f = look_flight(mesh, chip, link, place);
    match unless_refused(f.refusal, f.packet) {
        Ok(p) if is_marked(p.control) && mark_of(p.control) == 1 => 2,
        Ok(_) => 1,
        Err(_) => 0,
    }
}
