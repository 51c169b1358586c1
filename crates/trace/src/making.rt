// Making a kept call on a mesh whose buffer and tables were tested.
ghost use Rattle.std.specs.Prelude.{◌≡◌, length, ◌≤◌};
ghost use Rattle.mesh.specs.Lending.{with_room};
ghost use Rattle.buffer.specs.Leaving.{Moves};
ghost use Rattle.buffer.specs.Testing.{numbers_of, tested_of};
ghost use Rattle.trace.specs.Replay.{made_left, made_room};

use buffer::changing::{read_registers_tested, set_link_tested};
use buffer::moving::{inject_tested, round_tested};
use buffer::testing::Tested;
use mesh::Added;
use mesh::lent::Tables;
use packet::refused::told;
use records::Call;
use records::kinds::Kind;

pub fn make(
    mesh: &mut [u32],
    log: &mut [u32],
    call: Call,
    tables: &Tables<'_>,
    room: &mut [u32],
    tested: Tested,
) -> Added
    requires { (call.length ≤ 9) × (numbers_of tested ≡ tested_of mesh.old (with_room tables.now (length room.old))) }
    ensures moves { Moves mesh.old log.old (made_left mesh.old (with_room tables.now (length room.old)) (length log.old) call) result mesh.new log.new }
    ensures room_after { room.new ≡ made_room mesh.old (with_room tables.now (length room.old)) (length log.old) call room.old }
{
    // No record keeps a call of no kind: the definitions let it go with the last.
    let kind = Kind::try_from(call.kind).unwrap_or(Kind::Registers);
    match kind {
        Kind::Injection => {
            let b = call.bytes;
            let packet = [b[0], b[1], b[2], b[3], b[4], b[5], b[6], b[7], b[8]];
            let size = call.length as usize;
            inject_tested(
                mesh,
                log,
                call.chip,
                &packet[..size],
                tables,
                room.len(),
                tested,
            )
        }
        Kind::Round => round_tested(mesh, log, tables, room, tested),
        Kind::LinkChange => {
            let refusal = told(set_link_tested(
                mesh,
                call.chip,
                call.link,
                call.up == 1,
                tested.is_some(),
            ));
            Added {
                refusal,
                added: 0,
                place: 0,
            }
        }
        Kind::Registers => {
            let read = read_registers_tested(mesh, call.chip, tested.is_some());
            Added {
                refusal: read.refusal,
                added: 0,
                place: 0,
            }
        }
    }
}
