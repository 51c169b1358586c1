// Where each up link leads, read once from the mesh's words: chip after chip, six links each. The flood reads no words after this and divides no
// more.
ghost use Rattle.std.specs.Prelude.{◌≡◌, true, ◌<◌};
ghost use Rattle.buffer.specs.Layout.{mesh_of, chips_of};
ghost use Rattle.buffer.specs.Holding.{holds_mesh};
ghost use Rattle.flood.specs.Marks.{lead_of, Around};

use links::across::across_link;
use links::offsets::{CHIP, HEADER, HEIGHT, LINK, LINKS_AT, STATE, WIDTH};
use tables::size::chips;

// What stands for a link that is down: no chip has this number. Not an `Option`: one comparison, `lead < 144` in `marking::is_below`, asks both whether a link is up and
// whether the chip that it leads to has a mark, where a `Some` would leave the second to be asked.
const DOWN: u8 = 255;

pub fn around_all(mesh: &[u32]) -> [u8; 864]
    requires { holds_mesh mesh.now ≡ true }
    ensures { Around (mesh_of mesh.now) (chips_of mesh.now) result }
{
    let mut around = [DOWN; 864];
    for k in 0..chips(mesh[WIDTH], mesh[HEIGHT]) * 6 {
        around[k] = lead_of(mesh, k / 6, k % 6);
    }
    around
}

// The chip that a link leads to where it is up.
fn lead_of(mesh: &[u32], chip: usize, link: usize) -> u8
    requires { (holds_mesh mesh.now ≡ true) × ((chip < chips_of mesh.now) × (link < 6)) }
    ensures { result ≡ lead_of (mesh_of mesh.now) chip link }
{
    let at = HEADER + chip * CHIP + (LINKS_AT + link * LINK) + STATE;
    if mesh[at] != 0 {
        return DOWN;
    }
    let width = mesh[WIDTH];
    let height = mesh[HEIGHT];
    let x = (chip as u32) % width;
    let y = (chip as u32) / width;
    across_link(width, height, x, y, link as u32) as u8
}
