// Arguments of the program, and the path of a file that FILE names: relative to FILE's own folder.
use script::cells::between;
use std::env::Env;

// No path is longer.
pub const PATH: usize = 4096;

#[derive(Clone, Copy)]
pub struct Name {
    bytes: [u8; PATH],
    length: usize,
}

impl Name {
    fn empty() -> Name {
        Name {
            bytes: [0; PATH],
            length: 0,
        }
    }

    // An argument of the program: empty where there is none, or where it is longer than a path.
    pub fn argument(rt: &HostRuntime, n: usize) -> Name {
        let mut name = Name::empty();
        name.length = rt.arg(n, &mut name.bytes).unwrap_or(0);
        name
    }

    // The path of a file named in FILE: empty where it is longer than a path.
    pub fn beside(file: &[u8], own: &[u8]) -> Name {
        let mut name = Name::empty();
        if !own.starts_with(b"/") {
            name.push(folder_of(file));
        }
        name.push(own);
        name
    }

    pub fn bytes(&self) -> &[u8] {
        between(&self.bytes, 0, self.length)
    }

    fn push(&mut self, own: &[u8]) {
        let end = self.length.saturating_add(own.len());
        if let Some(room) = self.bytes.get_mut(self.length..end) {
            room.copy_from_slice(own);
        }
        self.length = end;
    }
}

// FILE's folder, its last / with it: empty where FILE names none.
fn folder_of(file: &[u8]) -> &[u8] {
    match file.iter().rposition(|b| *b == b'/') {
        Some(slash) => &file[..slash + 1],
        None => b"",
    }
}
