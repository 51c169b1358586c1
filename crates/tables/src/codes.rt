// One chip's P2P table.
ghost use Rattle.std.specs.Prelude.{◌≡◌, length, ◌*◌, ◌≤◌};
ghost use Rattle.tables.specs.Codes.{code_for};

// Where a destination leads: one code for each chip at y * W + x, 6 off the mesh.
pub fn code_for(codes: &[u8], width: u32, height: u32, destination: u32) -> u32
    requires { (width ≤ 12) × ((height ≤ 12) × (height * width ≤ length codes.now)) }
    ensures { result ≡ code_for codes.now width height destination }
{
    let x = destination / 256;
    let y = destination % 256;
    if x < width {
        if y < height {
            let at = (y * width + x) as usize;
            return u32::from(codes[at]);
        }
    }
    6
}
