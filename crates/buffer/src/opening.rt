// How long a mesh buffer must be, and opening a mesh in one.
ghost use Rattle.std.specs.Prelude.{◌≡◌, true, length};
ghost use Rattle.packet.specs.Refusal.{first_of};
ghost use Rattle.packet.specs.Refused.{told};
ghost use Rattle.tables.specs.Sizes.{size_fine};
ghost use Rattle.buffer.specs.Layout.{words_for};
ghost use Rattle.mesh.specs.Mesh.{rounds_fine};
ghost use Rattle.buffer.specs.Opening.{open_refusals, opening, size_of};

use links::offsets::{CHIP, HEADER, HEIGHT, MONITOR, ROUNDS, WIDTH};
use packet::refused::Refused;
use tables::size::{chips, size_fine};

// What asking for the size answers, in the form of the C interface.
#[repr(C)]
#[derive(Clone, Copy)]
pub struct SizeRead {
    pub refusal: u32,
    pub words: u32,
}

// The words that opening needs: 7 for a size out of range.
pub fn size(width: u32, height: u32) -> SizeRead
    ensures { result ≡ size_of width height }
{
    if size_fine(width, height) {
        let words = words_for(width, height) as u32;
        SizeRead { refusal: 0, words }
    } else {
        SizeRead {
            refusal: u32::from(Refused::Size),
            words: 0,
        }
    }
}

pub fn words_for(width: u32, height: u32) -> usize
    requires { size_fine width height ≡ true }
    ensures { result ≡ words_for width height }
{
    HEADER + chips(width, height) * CHIP
}

// Opens a mesh: all links up, nothing in flight, registers and counters at zeros, phase 00. Refusals, the first that applies: 7 for
// the size or the rounds in a phase, 6 for the monitor, 8 for a buffer that is too short.
pub fn open(
    mesh: &mut [u32],
    width: u32,
    height: u32,
    rounds: u32,
    monitor: u32,
) -> Result<(), Refused>
    ensures value { told result ≡ first_of (open_refusals (length mesh.old) width height rounds monitor) }
    ensures mesh_after { mesh.new ≡ opening (told result) mesh.old width height rounds monitor }
{
    if !size_fine(width, height) {
        return Err(Refused::Size);
    }
    if !rounds_fine(rounds) {
        return Err(Refused::Size);
    }
    if 19 < monitor {
        return Err(Refused::OutOfRange);
    }
    let needed = words_for(width, height);
    if mesh.len() < needed {
        return Err(Refused::NoMesh);
    }
    mesh[..needed].fill(0);
    mesh[WIDTH] = width;
    mesh[HEIGHT] = height;
    mesh[ROUNDS] = rounds;
    mesh[MONITOR] = monitor;
    Ok(())
}

pub fn rounds_fine(rounds: u32) -> bool
    ensures { result ≡ rounds_fine rounds }
{
    (1 <= rounds) & (rounds <= 65535)
}
