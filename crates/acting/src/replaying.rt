// The calls of a kept trace, made again: up to the first that is refused.
use super::play::Play;
use records::reading::read_record;
use report::course::Caller;
use report::records::{Record, Records};
use report::telling::unless_refused;
use std::fs::File;
use std::io;

impl<'a> Play<'a> {
    pub fn replay(&mut self, from: File) -> io::Result<()> {
        let mut records = Records::of(&from);
        for _ in 0..u64::MAX {
            match records.next_record() {
                Ok(Some(record)) => self.replay_record(record)?,
                Ok(None) => break,
                Err(e) => {
                    self.failure = Some(e);
                    break;
                }
            }
            if self.course.refused != 0 {
                break;
            }
        }
        Ok(())
    }

    fn replay_record(&mut self, record: Record<'_>) -> io::Result<()> {
        self.course.caller = Caller::Record(record.at);
        let r = read_record(record.bytes);
        let answer = unless_refused(r.refusal, r.call);
        match self.course.accepted(self.rt, answer)? {
            Some(call) => self.make(call),
            None => Ok(()),
        }
    }
}
