// The calls that change one thing: a link's state, a chip's registers.
ghost use Rattle.std.specs.Prelude.{◌≡◌, ◌<◌, length};
ghost use Rattle.packet.specs.Refused.{told};
ghost use Rattle.kept.specs.Keeping.{empty};
ghost use Rattle.lists.specs.Lists.{put_back};
ghost use Rattle.buffer.specs.Layout.{mesh_of, register_words};
ghost use Rattle.buffer.specs.Holding.{holds_mesh};
ghost use Rattle.buffer.specs.ChipWords.{changed_on};
ghost use Rattle.mesh.specs.Calls.{registers_read};
ghost use Rattle.buffer.specs.Leaving.{Leaves, link_left, registers_left, state_on};
ghost use Rattle.links.specs.Offsets.{registers_long, chip_long};

use super::holding::holds;
use super::refusing::{chip_refusal, number_refusal};
use super::registers::{put_registers, registers_at};
use kept::keeping::empty_registers;
use links::link::set_state;
use links::offsets::{CHIP, HEADER, LINK, LINKS_AT, REGISTERS};
use mesh::RegistersRead;
use packet::refused::Refused;

// Takes one directed link of a chip up or down. Refusals, the first that applies: 8 no mesh, 9 chip or link.
pub fn set_link(mesh: &mut [u32], chip: u32, link: u32, up: bool) -> Result<(), Refused>
    ensures value { told result ≡ (link_left mesh.old chip link up).refusal }
    ensures leaves { Leaves mesh.old mesh.new (link_left mesh.old chip link up) }
{
    set_link_tested(mesh, chip, link, up, holds(mesh))
}

// A link change where the buffer was tested.
pub fn set_link_tested(
    mesh: &mut [u32],
    chip: u32,
    link: u32,
    up: bool,
    held: bool,
) -> Result<(), Refused>
    requires { held ≡ holds_mesh mesh.old }
    ensures value { told result ≡ (link_left mesh.old chip link up).refusal }
    ensures leaves { Leaves mesh.old mesh.new (link_left mesh.old chip link up) }
{
    number_refusal(mesh, held, chip, link, 6)?;
    let at = HEADER + (chip as usize) * CHIP;
    link_on_chip(&mut mesh[at..at + CHIP], link as usize, up);
    Ok(())
}

// Hands over a chip's error registers and empties them. Refusals, the first that applies: 8 no mesh, 9 chip.
pub fn read_registers(mesh: &mut [u32], chip: u32) -> RegistersRead
    ensures value { result ≡ registers_read (holds_mesh mesh.old) (mesh_of mesh.old) chip }
    ensures leaves { Leaves mesh.old mesh.new (registers_left mesh.old chip) }
{
    read_registers_tested(mesh, chip, holds(mesh))
}

// A read of registers where the buffer was tested.
pub fn read_registers_tested(mesh: &mut [u32], chip: u32, held: bool) -> RegistersRead
    requires { held ≡ holds_mesh mesh.old }
    ensures value { result ≡ registers_read (holds_mesh mesh.old) (mesh_of mesh.old) chip }
    ensures leaves { Leaves mesh.old mesh.new (registers_left mesh.old chip) }
{
    if let Err(refused) = chip_refusal(mesh, held, chip) {
        return RegistersRead {
            refusal: u32::from(refused),
            registers: empty_registers(),
        };
    }
    let at = HEADER + (chip as usize) * CHIP;
    let registers = registers_at(&mesh[at..at + REGISTERS]);
    empty_chip(&mut mesh[at..at + CHIP]);
    RegistersRead {
        refusal: 0,
        registers,
    }
}

fn link_on_chip(chip: &mut [u32], link: usize, up: bool)
    requires { (length chip.old ≡ chip_long) × (link < 6) }
    ensures { chip.new ≡ changed_on (state_on up) chip.old link }
{
    let at = LINKS_AT + link * LINK;
    set_state(&mut chip[at..at + LINK], up);
}

fn empty_chip(chip: &mut [u32])
    requires { length chip.old ≡ chip_long }
    ensures { chip.new ≡ put_back 0 registers_long (register_words empty) chip.old }
{
    put_registers(&mut chip[0..REGISTERS], empty_registers());
}
