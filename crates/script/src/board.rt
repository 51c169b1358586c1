// The mesh that FILE asks for, and the names of its chips.
ghost use Rattle.std.specs.Prelude.{◌≡◌, ◌*◌, ◌/◌, ◌%◌, ◌<◌, ◌≤◌, IfSome};

use super::parts::Place;

#[derive(Clone, Copy, Debug, PartialEq, Eq)]
pub struct Board {
    pub width: u32,
    pub height: u32,
    pub phase: u32,
    pub monitor: u32,
    pub ghost some_wide: { 0 < width },
    pub ghost most_wide: { width ≤ 12 },
    pub ghost some_high: { 0 < height },
    pub ghost most_high: { height ≤ 12 },
}

impl Board {
    // How many chips there are.
    pub fn chips(self) -> u32
        ensures value { result ≡ self.width * self.height }
        ensures some { 0 < result }
        ensures most { result ≤ 144 }
    {
        self.width * self.height
    }

    // How many codes there are: one of each chip for each.
    pub fn codes(self) -> usize
        ensures value { result ≡ (self.width * self.height) * (self.width * self.height) }
        ensures most { result ≤ 20736 }
    {
        let chips = self.chips() as usize;
        chips * chips
    }

    // The chip that is named so, if there is one.
    pub fn chip(self, place: Place) -> Option<u32>
        ensures { IfSome result (λ n. n < self.width * self.height) }
    {
        chip_at(self.width, self.height, place)
    }

    // A chip's name by its x and y.
    pub fn place(self, chip: u32) -> Place {
        Place::At {
            x: self.x_of(chip),
            y: self.y_of(chip),
        }
    }

    pub fn x_of(self, chip: u32) -> u32
        ensures value { result ≡ chip % self.width }
        ensures below { result < self.width }
    {
        chip % self.width
    }

    pub fn y_of(self, chip: u32) -> u32
        ensures { result ≡ chip / self.width }
    {
        chip / self.width
    }

    // The chip at the other end of a link: 0 east, 1 north-east, 2 north, 3 west, 4 south-west, 5 south. The mesh wraps.
    pub fn beyond(self, chip: u32, link: u32) -> u32 {
        let (west, south) = (self.width - 1, self.height - 1);
        let (by_x, by_y) = match link {
            0 => (1, 0),
            1 => (1, 1),
            2 => (0, 1),
            3 => (west, 0),
            4 => (west, south),
            _ => (0, south),
        };
        let x = (self.x_of(chip) + by_x) % self.width;
        let y = self.y_of(chip).wrapping_add(by_y) % self.height;
        y * self.width + x
    }
}

// The chip that is named so in a mesh of these sides, if there is one. They may be any two numbers: a side of 0 stands for no mesh.
#[tactic(auto, using(crate::proofs::Chips::chip_below))]
pub fn chip_at(width: u32, height: u32, place: Place) -> Option<u32>
    ensures { IfSome result (λ n. width ≤ 144 → height ≤ 144 → n < width * height) }
{
    match place {
        Place::At { x, y } if x < width && y < height => Some(times(width, y).wrapping_add(x)),
        Place::Number(n) if n < times(width, height) => Some(n),
        _ => None,
    }
}

// A product of two sides, or of a side and what is counted along one: 0 where one of them is above 144.
fn times(a: u32, b: u32) -> u32
    ensures value { a ≤ 144 → b ≤ 144 → result ≡ a * b }
    ensures most { result ≤ 20736 }
{
    if a <= 144 && b <= 144 { a * b } else { 0 }
}

// The link that a packet sent by a link arrives by, and the other way round.
pub fn opposite(link: u32) -> u32 {
    (link % 6 + 3) % 6
}
