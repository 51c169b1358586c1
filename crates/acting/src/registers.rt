// A chip's error registers in words.
use kept::Registers;
use kept::keeping::MOST_UNITS;
use packet::control::carries_of;
use report::telling::Contents;
use script::names::link_name;
use std::fmt;

#[derive(Clone, Copy)]
pub struct Shown(pub Registers);

impl fmt::Display for Shown {
    fn fmt<W: fmt::Write>(&self, f: &mut fmt::Formatter<W>) -> fmt::Result {
        let r = self.0;
        if r.units == 0 {
            return f.write_str("empty");
        }
        let leg = if r.leg == 1 { " (second leg)" } else { "" };
        write!(
            f,
            "dropped at link {}{leg} {}",
            link_name(r.link),
            contents_of(r)
        )?;
        if r.source < 6 {
            write!(f, ", came in by link {}", link_name(r.source))?;
        } else {
            f.write_str(", local")?;
        }
        write!(f, ", phase {:02b}, {}", r.phase.min(3), Units(r.units))
    }
}

fn contents_of(r: Registers) -> Contents {
    let nine = carries_of(r.control) == 1;
    Contents {
        control: r.control,
        word: r.word,
        payload: if nine { Some(r.payload) } else { None },
    }
}

// The number stops at the most, and says no more from there on.
#[derive(Clone, Copy)]
struct Units(u32);

impl fmt::Display for Units {
    fn fmt<W: fmt::Write>(&self, f: &mut fmt::Formatter<W>) -> fmt::Result {
        match self.0 {
            1 => f.write_str("1 unit"),
            MOST_UNITS => write!(f, "{MOST_UNITS} units or more"),
            n => write!(f, "{n} units"),
        }
    }
}
