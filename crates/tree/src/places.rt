// The size of a mesh, and where a chip stands on it.
ghost use Rattle.std.specs.Prelude.{◌≡◌, true, ◌+◌, ◌*◌, ◌<◌};
ghost use Rattle.tables.specs.Sizes.{size_fine};

use links::across::{east_of, north_of};

// A size that a mesh may have.
#[derive(Clone, Copy)]
pub struct Size {
    pub width: u32,
    pub height: u32,
    ghost fine: { size_fine width height ≡ true },
}

// So far east and so far north.
#[derive(Clone, Copy)]
pub struct Place {
    pub x: u32,
    pub y: u32,
}

impl Size {
    ghost use Rattle.links.specs.Across.{across};
    ghost use Rattle.tree.specs.Walking.{Stands, number_of};

    // The place of a chip.
    pub fn place(self, chip: u32) -> Place
        requires { chip < self.height * self.width }
        ensures number { number_of self.width result ≡ chip }
        ensures stands { Stands self.width self.height result.x result.y }
    {
        Place {
            x: chip % self.width,
            y: chip / self.width,
        }
    }

    // The place at the other end of a link.
    pub fn across(self, place: Place, link: u32) -> Place
        requires { Stands self.width self.height place.x place.y }
        ensures number { number_of self.width result ≡ across self.width self.height (number_of self.width place) link }
        ensures stands { Stands self.width self.height result.x result.y }
    {
        Place {
            x: east_of(self.width, place.x, link),
            y: north_of(self.height, place.y, link),
        }
    }

    // Chips by number y * W + x.
    pub fn number(self, place: Place) -> u32
        requires { Stands self.width self.height place.x place.y }
        ensures number { result ≡ number_of self.width place }
        ensures low { result < self.height * self.width }
        ensures few { result < 144 }
    {
        place.y * self.width + place.x
    }
}
