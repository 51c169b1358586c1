// Replaying a trace: its calls, one after another, on one mesh with one set of tables, each with the rest of the log.
ghost use Rattle.std.specs.Prelude.{◌≡◌, length};
ghost use Rattle.mesh.specs.Lending.{with_room};
ghost use Rattle.buffer.specs.Testing.{numbers_of, tested_of};
ghost use Rattle.trace.specs.Replay.{replay_of, Replays, replay_room, OneDone, one_room};

use super::Replayed;
use super::making::make;
use buffer::testing::{Tested, test};
use mesh::lent::Tables;
use records::reading::read_record;

// Replays a trace up to its end or to the first refusal, a record's or a call's; what earlier records did stands. Buffer and tables are tested
// once: no accepted call makes them worse.
pub fn replay(
    mesh: &mut [u32],
    log: &mut [u32],
    trace: &[u8],
    tables: &Tables<'_>,
    room: &mut [u32],
) -> Replayed
    ensures replays { Replays mesh.old mesh.new log.old log.new result (replay_of mesh.old (with_room tables.now (length room.old)) (length log.old) trace.now) }
    ensures room_after { room.new ≡ replay_room mesh.old (with_room tables.now (length room.old)) (length log.old) trace.now room.old }
{
    let tested = test(mesh, tables, room.len());
    let mut at = 0;
    let mut added = 0;
    // Each record's length says where the next one stands: no range counts it.
    while at < trace.len() {
        let from = added * 6;
        let done = replay_one(mesh, &mut log[from..], &trace[at..], tables, room, tested);
        if done.refusal != 0 {
            return Replayed {
                refusal: done.refusal,
                at,
                added,
                place: done.place,
            };
        }
        at += done.length;
        added += done.added as usize;
    }
    Replayed {
        refusal: 0,
        at,
        added,
        place: 0,
    }
}

// What one record of a replay does: a refusal and its place, or the bytes of the record and the log records added.
#[derive(Clone, Copy)]
struct Done {
    refusal: u32,
    length: usize,
    added: u32,
    place: u32,
}

fn replay_one(
    mesh: &mut [u32],
    log: &mut [u32],
    trace: &[u8],
    tables: &Tables<'_>,
    room: &mut [u32],
    tested: Tested,
) -> Done
    requires { numbers_of tested ≡ tested_of mesh.old (with_room tables.now (length room.old)) }
    ensures one_done { OneDone (with_room tables.now (length room.old)) trace.now mesh.old log.old mesh.new log.new result }
    ensures room_after { room.new ≡ one_room (with_room tables.now (length room.old)) trace.now mesh.old (length log.old) room.old }
{
    let record = read_record(trace);
    if record.refusal != 0 {
        return Done {
            refusal: record.refusal,
            length: 0,
            added: 0,
            place: 0,
        };
    }
    let call = record.call;
    let made = make(mesh, log, call, tables, room, tested);
    Done {
        refusal: made.refusal,
        length: record.length,
        added: made.added,
        place: made.place,
    }
}
