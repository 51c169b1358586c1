// What the calls on a mesh refuse, the first number that applies, where buffer and tables were tested.
ghost use Rattle.std.specs.Prelude.{◌≡◌, IfOk};
ghost use Rattle.packet.specs.Bytes.{packet_at};
ghost use Rattle.packet.specs.Refusal.{first_of};
ghost use Rattle.packet.specs.Refused.{number_of, told};
ghost use Rattle.buffer.specs.Layout.{mesh_of, chips_of};
ghost use Rattle.buffer.specs.Holding.{holds_mesh};
ghost use Rattle.mesh.specs.Weights.{in_flight};
ghost use Rattle.mesh.specs.Refusals.{chip_refusals, number_refusals};
ghost use Rattle.buffer.specs.Testing.{numbers_of, inject_number, round_number, place_told};

use super::flight::in_flight;
use super::testing::Tested;
use links::offsets::{HEIGHT, WIDTH};
use packet::Packet;
use packet::bytes::packet_to_pass;
use packet::refused::Refused;
use tables::size::chips;

// Injection: 8 no mesh, 9 chip, 15 starts, 16 too many rows, 17 route bits, 18 fixed routes, 11 codes, 29 room, 10 log, 2 length, 4 NN with T = 1.
pub fn injected_packet(
    mesh: &[u32],
    tested: Tested,
    room: usize,
    chip: u32,
    bytes: &[u8],
) -> Result<Packet, Refused>
    requires { (numbers_of tested).holds ≡ holds_mesh mesh.now }
    ensures refusal { told result ≡ inject_number (numbers_of tested) (chips_of mesh.now) chip room bytes.now }
    ensures packet { IfOk result (λ p. p ≡ packet_at bytes.now) }
{
    let Some(tables) = tested else {
        return Err(Refused::NoMesh);
    };
    if chips(mesh[WIDTH], mesh[HEIGHT]) <= (chip as usize) {
        return Err(Refused::NotThere);
    }
    if let Err(wrong) = tables {
        return Err(wrong.refused);
    }
    if room < 6 {
        return Err(Refused::LogRoom);
    }
    packet_to_pass(bytes)
}

// A round: 8 no mesh, 15 starts, 16 too many rows, 17 route bits, 18 fixed routes, 11 codes, 29 room, 10 log.
pub fn round_refusal(mesh: &[u32], tested: Tested, room: usize) -> Result<(), Refused>
    requires { (numbers_of tested).holds ≡ holds_mesh mesh.now }
    ensures { told result ≡ round_number (numbers_of tested) (in_flight (mesh_of mesh.now)) room }
{
    let Some(tables) = tested else {
        return Err(Refused::NoMesh);
    };
    if let Err(wrong) = tables {
        return Err(wrong.refused);
    }
    if room < (in_flight(mesh, chips(mesh[WIDTH], mesh[HEIGHT])) as usize) * 6 {
        return Err(Refused::LogRoom);
    }
    Ok(())
}

// Where a refusal holds: the tables' own reason has a place, and no other.
pub fn place_told(tested: Tested, refused: Refused) -> u32
    ensures { result ≡ place_told (numbers_of tested) (number_of refused) }
{
    match tested {
        Some(Err(wrong)) if wrong.refused == refused => wrong.place,
        _ => 0,
    }
}

// A chip's registers: 8 no mesh, 9 chip.
pub fn chip_refusal(mesh: &[u32], held: bool, chip: u32) -> Result<(), Refused>
    requires { held ≡ holds_mesh mesh.now }
    ensures { told result ≡ first_of (chip_refusals (holds_mesh mesh.now) (chips_of mesh.now) chip) }
{
    if !held {
        return Err(Refused::NoMesh);
    }
    if chips(mesh[WIDTH], mesh[HEIGHT]) <= (chip as usize) {
        return Err(Refused::NotThere);
    }
    Ok(())
}

// A link or a counter of a chip: 8 no mesh, 9 chip, link or counter.
pub fn number_refusal(
    mesh: &[u32],
    held: bool,
    chip: u32,
    number: u32,
    end: u32,
) -> Result<(), Refused>
    requires { held ≡ holds_mesh mesh.now }
    ensures { told result ≡ first_of (number_refusals (holds_mesh mesh.now) (chips_of mesh.now) chip number end) }
{
    chip_refusal(mesh, held, chip)?;
    if end <= number {
        return Err(Refused::NotThere);
    }
    Ok(())
}
