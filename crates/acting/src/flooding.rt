// A flood of FILE: all codes as the links then are. Where FILE is checked, how many pairs of chips have no way, and the first of them.
use super::play::Play;
use flood::flooding::flood;
use report::course::Course;
use report::telling::Refusal;
use script::board::Board;
use script::parts::Place;
use std::io;

// The code that leads nowhere.
const NOWHERE: u8 = 6;

impl<'a> Play<'a> {
    pub fn flood(&mut self) -> io::Result<()> {
        let answer = flood(&self.memory.mesh, self.sheet.codes_mut()).map_err(Refusal::from);
        self.course.accepted(self.rt, answer)?;
        if let Some(before) = self.course.unreached {
            let more = tell_unreached(self.rt, &self.course, self.sheet.codes())?;
            self.course.unreached = Some(before.wrapping_add(more as u64));
        }
        Ok(())
    }
}

// How many pairs have no way. Where there are any, that is told, and the first.
fn tell_unreached(rt: &HostRuntime, c: &Course, codes: &[u8]) -> io::Result<usize> {
    let Some(first) = codes.iter().position(|code| *code == NOWHERE) else {
        return Ok(0);
    };
    let n = codes.iter().filter(|code| **code == NOWHERE).count();
    let (from, to) = pair_at(c.board, first);
    println!(rt;
        "{}: flood: no way for {n} pairs of chips, first from {from} to {to}",
        c.caller
    )?;
    Ok(n)
}

// The chips that the code at a place is of and for.
fn pair_at(b: Board, at: usize) -> (Place, Place) {
    let at = u32::try_from(at).unwrap_or_default();
    let all = b.chips();
    (b.place(at / all), b.place(at % all))
}
