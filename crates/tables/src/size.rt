// How large a mesh may be, and how many chips it has.
ghost use Rattle.std.specs.Prelude.{◌≡◌, true, ◌*◌};
ghost use Rattle.tables.specs.Sizes.{size_fine};

pub fn size_fine(width: u32, height: u32) -> bool
    ensures { result ≡ size_fine width height }
{
    (1 <= width) & (width <= 12) & (1 <= height) & (height <= 12)
}

// How many chips a mesh of this size has.
pub fn chips(width: u32, height: u32) -> usize
    requires { size_fine width height ≡ true }
    ensures { result ≡ height * width }
{
    (height * width) as usize
}
