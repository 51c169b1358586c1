// A trace as lines that FILE could hold: kept again behind FILE's mesh and tables they give the same bytes.
use super::status::{Status, Stop, failed, readable};
use records::Call;
use records::kinds::Kind;
use records::reading::read_record;
use report::course::Caller;
use report::records::{Record, Records};
use report::telling::unless_refused;
use script::names::link_name;
use sheet::paths::Name;
use std::{fmt, io};

pub fn show(rt: &HostRuntime) -> Result<Status, Stop> {
    let name = Name::argument(rt, 2);
    let mut lines = Lines {
        rt,
        rounds: 0,
        status: Status::Accepted,
    };
    lines.show_records(name.bytes())?;
    lines.show_rounds()?;
    Ok(lines.status)
}

// Rounds read and not yet shown: as many as a line takes are shown by one line. Whether a record was refused.
#[derive(Clone, Copy)]
struct Lines<'a> {
    rt: &'a HostRuntime,
    rounds: u32,
    status: Status,
}

impl<'a> Lines<'a> {
    // Shows records up to the first that is refused.
    fn show_records(&mut self, trace: &[u8]) -> Result<(), Stop> {
        let from = readable(self.rt, trace)?;
        let mut records = Records::of(&from);
        for _ in 0..u64::MAX {
            match records.next_record() {
                Ok(Some(record)) => self.show_record(record)?,
                Ok(None) => break,
                Err(e) => {
                    self.show_rounds()?;
                    return Err(failed(self.rt, trace, &e));
                }
            }
            if self.status == Status::Refused {
                break;
            }
        }
        Ok(())
    }

    fn show_record(&mut self, record: Record<'_>) -> io::Result<()> {
        let r = read_record(record.bytes);
        match unless_refused(r.refusal, r.call) {
            Ok(call) => self.show_call(call),
            Err(refusal) => {
                self.show_rounds()?;
                self.status = Status::Refused;
                println!(self.rt; "# {}: refused {refusal}", Caller::Record(record.at))
            }
        }
    }

    fn show_call(&mut self, call: Call) -> io::Result<()> {
        if let Ok(Kind::Round) = Kind::try_from(call.kind) {
            return self.with_round();
        }
        self.show_rounds()?;
        println!(self.rt; "{}", Line(call))
    }

    fn with_round(&mut self) -> io::Result<()> {
        if self.rounds == u32::MAX {
            self.show_rounds()?;
        }
        self.rounds = self.rounds.saturating_add(1);
        Ok(())
    }

    fn show_rounds(&mut self) -> io::Result<()> {
        let rounds = self.rounds;
        self.rounds = 0;
        if rounds == 0 {
            return Ok(());
        }
        println!(self.rt; "rounds {rounds}")
    }
}

// The line of a call that is no round.
#[derive(Clone, Copy)]
struct Line(Call);

impl fmt::Display for Line {
    fn fmt<W: fmt::Write>(&self, f: &mut fmt::Formatter<W>) -> fmt::Result {
        let call = &self.0;
        match Kind::try_from(call.kind) {
            Ok(Kind::Injection) => {
                write!(f, "packet chip {}", call.chip)?;
                for byte in call.bytes.iter().take(call.length as usize) {
                    write!(f, " {byte:02x}")?;
                }
                Ok(())
            }
            Ok(Kind::LinkChange) => {
                let to = if call.up == 1 { "up" } else { "down" };
                write!(f, "{to} chip {} ", call.chip)?;
                // A link that no chip has is shown as its number, though no line takes it.
                match call.link {
                    link @ 0..=5 => write!(f, "{}", link_name(link)),
                    other => write!(f, "{other}"),
                }
            }
            _ => write!(f, "registers chip {}", call.chip),
        }
    }
}
