// The tree grows, target by target: for each chip the link by which it was entered, and its route.
use super::places::Size;
use super::targets::set_of;
use super::ways::way_between;
use super::{Rest, Way};
use std::marker::Model;
use steps::wants::bit;

// The marks of the source, which no link enters, and of a chip outside the tree: they stand beside the links' numbers, as `needs_row` and `within` have them.
const SOURCE: u8 = 6;

const OUTSIDE: u8 = 7;

// The tree so far, chip by chip.
#[derive(Drop)]
pub struct Grown {
    entered: [u8; 144],
    routes: [u32; 144],
}

impl Model for Grown {
    ghost use Rattle.tree.specs.Growing.{Grown};
    ghost use Rattle.tree.specs.Walking.{grown_of, Marks};

    ghost Value = { Grown };

    ghost view = { λ t. grown_of t.entered t.routes };

    ghost invariant = { λ t. Marks t.entered t.routes };
}

impl Grown {
    ghost use Rattle.std.specs.Prelude.{◌≡◌, true, Some, None, cond, ◌*◌, ◌<◌};
    ghost use Rattle.tree.specs.Way.{links_of};
    ghost use Rattle.tree.specs.Growing.{targets_of, last_shared, source_alone, within, with_part, with_target, grown_by};
    ghost use Rattle.tree.specs.Rows.{has_row, route_at};
    ghost use Rattle.tree.specs.Call.{all_there, sets_fine};
    ghost use Rattle.tree.specs.Walking.{Small, target_of, part_from, whole_way, with_link, with_set};

    // The source alone, with nowhere to go.
    pub fn source_alone(source: u32) -> Self
        requires { source < 144 }
        ensures { result ≡ source_alone source }
    {
        let mut entered = [OUTSIDE; 144];
        entered[source as usize] = SOURCE;
        Grown {
            entered,
            routes: [0; 144],
        }
    }

    // Target by target, two words each.
    pub fn grow(&mut self, size: Size, source: u32, targets: &[u32])
        requires there { source < size.height * size.width }
        requires targets { (all_there (size.height * size.width) (targets_of targets.now) ≡ true) × (sets_fine (targets_of targets.now) ≡ true) }
        ensures { self.new ≡ grown_by size.width size.height source self.old (targets_of targets.now) }
    {
        for target in targets.chunks(2) {
            self.add_target(size, source, target[0], set_of(target));
        }
    }

    // A chip's route, where it needs a row: one that the packet goes straight through needs none, the source always one.
    pub fn row(&self, chip: usize) -> Option<u32>
        requires { chip < 144 }
        ensures { result ≡ cond (has_row self.now chip) (Some (route_at self.now chip)) None }
    {
        let entered = self.entered[chip];
        let route = self.routes[chip];
        let needed = if entered < SOURCE {
            route != bit(u32::from(entered))
        } else {
            entered == SOURCE
        };
        if needed { Some(route) } else { None }
    }

    // The part of the way to a chip that is new, and the chip's processors.
    fn add_target(&mut self, size: Size, source: u32, chip: u32, set: u32)
        requires { (source < size.height * size.width) × ((chip < size.height * size.width) × (set < 1048576)) }
        ensures { self.new ≡ with_target size.width size.height source self.old (target_of chip set) }
    {
        let way = way_between(size, source, chip);
        let rest = self.last_shared(size, source, way);
        self.add_links(size, rest, way);
        self.add_processors(chip, set);
    }

    // The part of a way after its last chip within the tree.
    fn last_shared(&self, size: Size, source: u32, way: Way) -> Rest
        requires { (source < size.height * size.width) × Small way }
        ensures part { part_from (links_of way) result ≡ last_shared size.width size.height self.now.entered (whole_way source (links_of way)) source (links_of way) }
        ensures leaves { result.chip < size.height * size.width }
    {
        let legs = way.legs();
        let mut place = size.place(source);
        let mut rest = Rest {
            chip: source,
            at: 0,
        };
        for j in 0..legs.end {
            place = size.across(place, legs.link_at(j));
            let chip = size.number(place);
            if self.holds(chip) {
                rest = Rest { chip, at: j + 1 };
            }
        }
        rest
    }

    // The links of that part, one after the other.
    fn add_links(&mut self, size: Size, rest: Rest, way: Way)
        requires { (rest.chip < size.height * size.width) × Small way }
        ensures { self.new ≡ with_part size.width size.height self.old (part_from (links_of way) rest) }
    {
        let legs = way.legs();
        let mut chip = rest.chip;
        let mut place = size.place(chip);
        for j in rest.at..legs.end {
            let link = legs.link_at(j);
            place = size.across(place, link);
            let next = size.number(place);
            self.add_link(chip, link, next);
            chip = next;
        }
    }

    fn holds(&self, chip: u32) -> bool
        requires { chip < 144 }
        ensures { result ≡ within self.now.entered chip }
    {
        self.entered[chip as usize] != OUTSIDE
    }

    fn add_link(&mut self, from: u32, link: u32, to: u32)
        requires { (from < 144) × ((link < 6) × (to < 144)) }
        ensures { self.new ≡ with_link self.old from link to }
    {
        let from = from as usize;
        self.routes[from] |= bit(link);
        self.entered[to as usize] = link as u8;
    }

    fn add_processors(&mut self, chip: u32, set: u32)
        requires { (chip < 144) × (set < 1048576) }
        ensures { self.new ≡ with_set self.old chip set }
    {
        let at = chip as usize;
        self.routes[at] |= set << 6;
    }
}
