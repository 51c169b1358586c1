// One packet alone in FILE's mesh: every pass of it, told before the round that makes it.
use super::calls::first_bytes;
use super::passes::Arrival;
use super::play::Play;
use super::spent::Spent;
use buffer::looking::look_flight;
use packet::Packet;
use packet::bytes::bytes_of;
use report::telling::{Refusal, unless_refused};
use script::board::opposite;
use std::io;

impl<'a> Play<'a> {
    // Sends a packet from a chip, and tells each of its passes.
    pub fn follow(&mut self, chip: u32, packet: Packet) -> io::Result<()> {
        self.tell_pass(Arrival {
            round: 0,
            chip,
            source: None,
            packet,
            spent: Spent::default(),
        })?;
        let packed = bytes_of(packet);
        self.memory.inject(self.sheet, chip, first_bytes(&packed.bytes, packed.length));
        match self.followed()? {
            1 => println!(self.rt; "nothing is in flight after 1 round"),
            rounds => println!(self.rt; "nothing is in flight after {rounds} rounds"),
        }
    }

    // Rounds until nothing is in flight. Answers how many it took.
    fn followed(&mut self) -> io::Result<u64> {
        let longest = self.longest();
        for number in 0..longest {
            if self.is_quiet() {
                return Ok(number);
            }
            self.tell_round(number + 1)?;
            self.lent_round();
        }
        Ok(longest)
    }

    fn tell_round(&self, round: u64) -> io::Result<()> {
        for chip in 0..self.course.board.chips() {
            self.tell_chip(round, chip)?;
        }
        Ok(())
    }

    // All that arrives at a chip: by arrival links 0 to 5, oldest first, eight packets a link at the most.
    fn tell_chip(&self, round: u64, chip: u32) -> io::Result<()> {
        let mut spent = Spent::default();
        for n in 0..48 {
            let link = n / 8;
            if let Ok(packet) = self.flight_to(chip, link, n % 8) {
                spent = self.tell_pass(Arrival {
                    round,
                    chip,
                    source: Some(link),
                    packet,
                    spent,
                })?;
            }
        }
        Ok(())
    }

    // The packet at a place of the link that leads to a chip's link.
    fn flight_to(&self, chip: u32, link: u32, place: u32) -> Result<Packet, Refusal> {
        let from = self.course.board.beyond(chip, link);
        let f = look_flight(&self.memory.mesh, from, opposite(link), place);
        unless_refused(f.refusal, f.packet)
    }
}
