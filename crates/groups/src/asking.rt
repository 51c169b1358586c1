// Which groups are asked for: a key asks for the group of its top byte, which is then marked.
ghost use Rattle.std.specs.Prelude.{◌≡◌, length, take, ◌≤◌, ◌<◌};
ghost use Rattle.groups.specs.Asking.{marks_asked, tops_asked, count_asked, Asking};

use super::top::top_of;

// The most keys at a time: as many packets as six links hold.
const KEYS: usize = 48;

// One for each top byte.
const GROUPS: usize = 256;

// The marks, and the top bytes that are asked for, each listed once: the first `count` of a list.
#[derive(Clone, Copy)]
pub struct Asks {
    pub marks: [u8; GROUPS],
    listed: [u8; KEYS],
    count: usize,
}

impl Asks {
    // Each key asks, where none has asked.
    pub fn of(keys: &[u32]) -> Asks
        requires { length keys.now ≤ 48 }
        ensures { Asking keys.now result.marks result.listed result.count }
    {
        let mut asks = Asks {
            marks: [0; GROUPS],
            listed: [0; KEYS],
            count: 0,
        };
        for key in keys {
            asks.ask(*key);
        }
        asks
    }

    // The top bytes that are asked for.
    pub fn tops(&self) -> &[u8]
        requires { self.now.count ≤ 48 }
        ensures { result.now ≡ take self.now.count self.now.listed }
    {
        &self.listed[..self.count]
    }

    // One key asks.
    fn ask(&mut self, key: u32)
        requires { self.old.count < 48 }
        ensures marks { self.new.marks ≡ marks_asked self.old.marks key }
        ensures listed { self.new.listed ≡ tops_asked self.old.marks self.old.listed self.old.count key }
        ensures count { self.new.count ≡ count_asked self.old.marks self.old.count key }
    {
        let g = top_of(key);
        if self.marks[g] == 0 {
            self.marks[g] = 1;
            self.listed[self.count] = g as u8;
            self.count += 1;
        }
    }
}
