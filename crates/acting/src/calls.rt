// The calls on the mesh, each told as it is made.
use super::keeping::call_of;
use super::play::Play;
use super::registers::Shown;
use buffer::changing::{read_registers, set_link};
use buffer::looking::look_mesh;
use mesh::Added;
use records::Call;
use records::kinds::Kind;
use report::placing::LentRefusal;
use report::telling::{Refusal, unless_refused};
use script::cells::between;
use std::io;

// Room for the groups of 1,024 rows, which are a chip's most: 257 numbers and 256 for each row.
const ROOM: usize = 262401;

const MANY_ROWS: usize = 65536;

const MANY_PACKETS: u32 = 2048;

impl<'a> Play<'a> {
    // Makes a call as a trace keeps it.
    pub fn make(&mut self, call: Call) -> io::Result<()> {
        match Kind::try_from(call.kind) {
            Ok(Kind::Injection) => self.send(call),
            Ok(Kind::Round) => self.rounds(1),
            Ok(Kind::LinkChange) => self.change_link(call),
            _ => self.registers(call),
        }
    }

    fn send(&mut self, call: Call) -> io::Result<()> {
        let a = self.memory.inject(self.sheet, call.chip, first_bytes(&call.bytes, call.length));
        let Some(added) = self.accepted(a)? else {
            return Ok(());
        };
        self.course.injected = self.course.injected.wrapping_add(1);
        self.keep(call);
        self.tell_deliveries(added, false)
    }

    // How many deliveries a call that is lent tables has put into the log, if it was not refused.
    fn accepted(&mut self, a: Added) -> io::Result<Option<u32>> {
        let board = self.course.board;
        let sheet = &*self.sheet;
        let answer = unless_refused(a.refusal, a.added).map_err(|refusal| LentRefusal {
            refusal,
            place: a.place,
            board,
            sheet,
        });
        self.course.accepted(self.rt, answer)
    }

    // So many rounds, up to the first that is refused.
    pub fn rounds(&mut self, count: u32) -> io::Result<()> {
        for _ in 0..count {
            if !self.round()? {
                break;
            }
        }
        Ok(())
    }

    // Rounds until nothing is in flight, or one is refused.
    pub fn until_quiet(&mut self) -> io::Result<()> {
        for _ in 0..self.longest() {
            if self.is_quiet() || !self.round()? {
                return Ok(());
            }
        }
        if self.is_quiet() {
            return Ok(());
        }
        println!(self.rt; "packets are still in flight")
    }

    // No packet lives longer than twice the rounds in a phase and one more.
    pub fn longest(&self) -> u64 {
        u64::from(self.course.board.phase) * 2 + 1
    }

    pub fn is_quiet(&self) -> bool {
        look_mesh(&self.memory.mesh).in_flight == 0
    }

    // A round, told. Answers whether it was accepted.
    fn round(&mut self) -> io::Result<bool> {
        let a = self.lent_round();
        self.course.goes_on(self.rt)?;
        let Some(added) = self.accepted(a)? else {
            return Ok(false);
        };
        self.course.rounds = self.course.rounds.wrapping_add(1);
        self.keep(call_of(Kind::Round));
        self.tell_deliveries(added, true)?;
        Ok(true)
    }

    // A round. Room for groups is lent where it may pay.
    pub fn lent_round(&mut self) -> Added {
        if self.may_pay() {
            self.round_in_room()
        } else {
            self.memory.round(self.sheet, &mut [0; 0])
        }
    }

    // To clear the room takes as long as a hundred thousand rows do: it pays where many packets meet long tables.
    fn may_pay(&self) -> bool {
        MANY_ROWS <= self.sheet.rows().len() / 3
            && MANY_PACKETS <= look_mesh(&self.memory.mesh).in_flight
    }

    // The room stands here, and not with the program's other memory: most runs need none. Put in place where it is called, it would stand there.
    #[inline(never)]
    fn round_in_room(&mut self) -> Added {
        let mut room = [0u32; ROOM];
        self.memory.round(self.sheet, &mut room)
    }

    fn change_link(&mut self, call: Call) -> io::Result<()> {
        let answer = set_link(&mut self.memory.mesh, call.chip, call.link, call.up == 1).map_err(
            Refusal::from,
        );
        if self.course.accepted(self.rt, answer)?.is_some() {
            self.keep(call);
        }
        Ok(())
    }

    fn registers(&mut self, call: Call) -> io::Result<()> {
        let r = read_registers(&mut self.memory.mesh, call.chip);
        let answer = unless_refused(r.refusal, r.registers);
        if let Some(found) = self.course.accepted(self.rt, answer)? {
            let place = self.course.board.place(call.chip);
            println!(self.rt; "registers {place}: {}", Shown(found))?;
            self.keep(call);
        }
        Ok(())
    }
}

// The bytes of a packet, of the nine that it may have.
pub fn first_bytes(bytes: &[u8; 9], count: u32) -> &[u8] {
    between(bytes, 0, count as usize)
}
