// What a chip has sent in the running round by each link: with the state of a link that says whether it is ready.
use buffer::looking::look_link;
use sheet::board::WORDS;

// A link that is up is ready while it holds at most six.
const ROOM: u32 = 6;

#[derive(Clone, Copy, Default)]
pub struct Spent([u32; 6]);

impl Spent {
    // The links of a chip that are ready.
    pub fn ready_set(self, chip: u32, mesh: &[u32; WORDS]) -> u32 {
        let mut set = 0;
        for link in 0..6 {
            if look_link(mesh, chip, link).up == 1 && self.0[link as usize] <= ROOM {
                set |= 1 << link;
            }
        }
        set
    }

    // What is spent after a pass that sends by these links, and a second leg by that one.
    pub fn after(self, sent: u32, leg: u32) -> Spent {
        let mut spent = self.0;
        for link in 0..6 {
            let more = u32::from(has(sent, link)) + u32::from(has(leg, link));
            spent[link as usize] = spent[link as usize].wrapping_add(more);
        }
        Spent(spent)
    }
}

// Whether a link is in a set.
pub fn has(set: u32, link: u32) -> bool {
    link < 32 && (set >> link) & 1 == 1
}
