// The call: all codes of a mesh, by flooding towards each chip.
ghost use Rattle.std.specs.Prelude.{◌≡◌, length, ◌*◌, ◌≤◌, ◌<◌, IfOk};
ghost use Rattle.packet.specs.Refusal.{first_of};
ghost use Rattle.packet.specs.Refused.{told};
ghost use Rattle.buffer.specs.Layout.{mesh_of, chips_of};
ghost use Rattle.buffer.specs.Holding.{holds_mesh};
ghost use Rattle.mesh.specs.Mesh.{Mesh};
ghost use Rattle.flood.specs.Codes.{codes_of, flood_refusals, flood_refusal, flooded};
ghost use Rattle.flood.specs.Marks.{Around, code_on, Column};

use super::around::around_all;
use super::marking::{code_on, marks_to};
use buffer::holding::holds;
use links::offsets::{HEIGHT, WIDTH};
use packet::refused::Refused;
use tables::size::chips;

// Writes all codes, chip after chip, as injection and round take them. Refusals, the first that applies: 8 no mesh, 11 a table of the wrong size.
pub fn flood(mesh: &[u32], codes: &mut [u8]) -> Result<(), Refused>
    ensures value { told result ≡ flood_refusal (holds_mesh mesh.now) (mesh_of mesh.now) codes.old }
    ensures codes_after { codes.new ≡ flooded (holds_mesh mesh.now) (mesh_of mesh.now) codes.old }
{
    let all = chips_flooded(mesh, codes.len())?;
    let around = around_all(mesh);
    write_codes(codes, &around, all);
    Ok(())
}

// How many chips the mesh has, for whose codes there is room.
fn chips_flooded(mesh: &[u32], long: usize) -> Result<usize, Refused>
    ensures refusal { told result ≡ first_of (flood_refusals (holds_mesh mesh.now) (chips_of mesh.now) long) }
    ensures chips { IfOk result (λ all. all ≡ chips_of mesh.now) }
{
    if !holds(mesh) {
        return Err(Refused::NoMesh);
    }
    let all = chips(mesh[WIDTH], mesh[HEIGHT]);
    if long != all * all {
        return Err(Refused::Codes);
    }
    Ok(all)
}

fn write_codes(codes: &mut [u8], around: &[u8; 864], all: usize)
    requires { (length codes.old ≡ all * all) × (all ≤ 144) }
    ensures { (m : Mesh (Unit {0})) → Around m all around.now → codes.new ≡ codes_of m }
{
    for to in 0..all {
        let marks = marks_to(around, all, to);
        write_to(codes, around, &marks, all, to);
    }
}

// The codes of all chips for one destination.
fn write_to(codes: &mut [u8], around: &[u8; 864], marks: &[u8; 144], all: usize, to: usize)
    requires { (length codes.old ≡ all * all) × ((all ≤ 144) × (to < all)) }
    ensures { Column all to (code_on around.now marks.now) codes.old codes.new }
{
    for from in 0..all {
        codes[from * all + to] = code_on(around, marks, from);
    }
}
