// One pass at a chip with its own tables, and its record in the log.
ghost use Rattle.std.specs.Prelude.{◌≡◌, ◌/◌, ◌<◌, ◌≤◌, [], ◌∷◌, length};
ghost use Rattle.groups.specs.Groups.{top_of, GroupedFor};
ghost use Rattle.tables.specs.Rows.{rows_of, route_for};
ghost use Rattle.buffer.specs.Layout.{chips_of};
ghost use Rattle.buffer.specs.PassesInTurn.{arrival, pass_by, Due, Passed};

use super::logging::write_record;
use super::one_pass::pass_at;
use groups::searching::grouped_row;
use packet::Packet;
use tables::lent::ChipTables;

// One pass. The log has n records before; answers how many it has then.
pub fn pass_one(
    mesh: &mut [u32],
    log: &mut [u32],
    n: usize,
    chip: usize,
    source: u32,
    p: Packet,
    tables: &ChipTables<'_>,
) -> usize
    requires { Due (arrival chip source p ∷ []) mesh.old log.old n × (chips_of mesh.old ≤ length tables.now.codes) }
    ensures { Passed (pass_by tables.now) (arrival chip source p ∷ []) mesh.old log.old n mesh.new log.new result }
{
    let o = pass_at(mesh, chip, source, p, tables);
    write_record(log, n, chip, o)
}

// The same where the room holds the group that the packet's key asks for: the pass is lent the one row that is found there, or none.
pub fn pass_found(
    mesh: &mut [u32],
    log: &mut [u32],
    n: usize,
    chip: usize,
    source: u32,
    p: Packet,
    tables: &ChipTables<'_>,
    room: &[u32],
) -> usize
    requires { (Due (arrival chip source p ∷ []) mesh.old log.old n × (chips_of mesh.old ≤ length tables.now.codes)) × ((length tables.now.rows / 3 ≤ 1024) × (top_of p.word < 256 → GroupedFor (rows_of tables.now.rows) room.now p.word)) }
    ensures { Passed (pass_by tables.now) (arrival chip source p ∷ []) mesh.old log.old n mesh.new log.new result }
{
    let found = found_row(tables.rows(), room, p.word);
    let own = ChipTables::new(found, tables.codes(), tables.fixed());
    pass_one(mesh, log, n, chip, source, p, &own)
}

// The one row that a key's group finds, or none: the key's route in it is that in the whole table.
fn found_row<'a>(rows: &'a [u32], room: &[u32], key: u32) -> &'a [u32]
    requires { (length rows.now / 3 ≤ 1024) × (top_of key < 256 → GroupedFor (rows_of rows.now) room.now key) }
    ensures { route_for key (rows_of result.now) ≡ route_for key (rows_of rows.now) }
{
    match grouped_row(rows, room, key) {
        Some(row) => &rows[row * 3..row * 3 + 3],
        None => &rows[..0],
    }
}
