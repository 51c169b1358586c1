// The calls of the model, as thin functions over the crates below: what a program in Rattle calls. `yagbolshen_c` exports them to C.
#![tactic(auto)]

ghost use Rattle.std.specs.Prelude.{◌≡◌, length};
ghost use Rattle.packet.specs.Fields.{read_of};
ghost use Rattle.packet.specs.Packing.{packed_of};
ghost use Rattle.packet.specs.Refusal.{first_of};
ghost use Rattle.packet.specs.Refused.{told};
ghost use Rattle.tables.specs.Rows.{found_in};
ghost use Rattle.tables.specs.Tables.{chip_tables};
ghost use Rattle.router.specs.Call.{pass_of};
ghost use Rattle.buffer.specs.Opening.{size_of, open_refusals, opening};
ghost use Rattle.buffer.specs.Layout.{mesh_of};
ghost use Rattle.buffer.specs.Holding.{holds_mesh};
ghost use Rattle.mesh.specs.Lending.{with_room};
ghost use Rattle.mesh.specs.Calls.{registers_read};
ghost use Rattle.mesh.specs.Looks.{count_read, mesh_read, link_read, flight_read};
ghost use Rattle.buffer.specs.Leaving.{Leaves, Moves, inject_left, round_left, round_room, link_left, registers_left};
ghost use Rattle.tree.specs.Call.{tree_of, rows_after, starts_after};
ghost use Rattle.fewer.specs.Call.{fewer_of, left_after, gone_after};
ghost use Rattle.records.specs.Records.{record_read, written_of, written_on};
ghost use Rattle.trace.specs.Replay.{replay_of, Replays, replay_room};
ghost use Rattle.flood.specs.Codes.{flood_refusal, flooded};
ghost use Rattle.yagbolshen.specs.Settings.{setting_of};

use buffer::opening::SizeRead;
use fewer::Fewer;
use mesh::lent::Tables;
use mesh::{Added, CountRead, FlightRead, LinkRead, MeshRead, RegistersRead};
use packet::refused::Refused;
use packet::{Fields, FieldsRead, Packed};
use records::{Call, Record, Written};
use router::Pass;
use steps::Setting;
use tables::lent::ChipTables;
use tables::{Row, RowFound};
use trace::Replayed;
use tree::Tree;

// The fields of a packet in bytes.
pub fn yagbolshen_read(packet: &[u8]) -> FieldsRead
    ensures { result ≡ read_of packet.now }
{
    packet::reading::read(packet)
}

// The bytes of a packet of fields.
pub fn yagbolshen_pack(fields: Fields) -> Packed
    ensures { result ≡ packed_of fields }
{
    packet::reading::pack(fields)
}

// One pass of one router.
pub fn yagbolshen_pass(
    packet: &[u8],
    source: u32,
    width: u32,
    height: u32,
    rows: &[u32],
    codes: &[u8],
    monitor: u32,
    phase: u32,
    ready: u32,
    fixed: u32,
    room: &mut [u32],
) -> Pass
    ensures value { result ≡ pass_of packet.now source (chip_tables rows.now codes.now fixed) (setting_of width height monitor phase ready) (length room.old) }
    ensures room_unchanged { room.new ≡ room.old }
{
    let t = Setting {
        width,
        height,
        monitor,
        phase,
        ready,
    };
    let tables = ChipTables::new(rows, codes, fixed);
    router::call::pass(packet, source, &tables, t, room.len())
}

// The first row of a table in row structs that takes a key.
pub fn yagbolshen_find(rows: &[Row], key: u32) -> RowFound
    ensures { result ≡ found_in key rows.now }
{
    tables::search::find(rows, key)
}

// The words that opening a mesh needs.
pub fn yagbolshen_size(width: u32, height: u32) -> SizeRead
    ensures { result ≡ size_of width height }
{
    buffer::opening::size(width, height)
}

// Opens a mesh in a buffer.
pub fn yagbolshen_open(
    mesh: &mut [u32],
    width: u32,
    height: u32,
    rounds_per_phase: u32,
    monitor: u32,
) -> Result<(), Refused>
    ensures value { told result ≡ first_of (open_refusals (length mesh.old) width height rounds_per_phase monitor) }
    ensures mesh_after { mesh.new ≡ opening (told result) mesh.old width height rounds_per_phase monitor }
{
    buffer::opening::open(mesh, width, height, rounds_per_phase, monitor)
}

// Passes a local packet at a chip.
pub fn yagbolshen_inject(
    mesh: &mut [u32],
    log: &mut [u32],
    chip: u32,
    packet: &[u8],
    tables: &Tables<'_>,
    room: &mut [u32],
) -> Added
    ensures moves { Moves mesh.old log.old (inject_left mesh.old (with_room tables.now (length room.old)) (length log.old) chip packet.now) result mesh.new log.new }
    ensures room_unchanged { room.new ≡ room.old }
{
    buffer::moving::inject(mesh, log, chip, packet, tables, room.len())
}

// Passes all that is in flight, once.
pub fn yagbolshen_round(
    mesh: &mut [u32],
    log: &mut [u32],
    tables: &Tables<'_>,
    room: &mut [u32],
) -> Added
    ensures moves { Moves mesh.old log.old (round_left mesh.old (with_room tables.now (length room.old)) (length log.old)) result mesh.new log.new }
    ensures room_after { room.new ≡ round_room mesh.old (with_room tables.now (length room.old)) (length log.old) room.old }
{
    buffer::moving::round(mesh, log, tables, room)
}

// Takes one directed link of a chip up or down.
pub fn yagbolshen_set_link(mesh: &mut [u32], chip: u32, link: u32, up: bool) -> Result<(), Refused>
    ensures value { told result ≡ (link_left mesh.old chip link up).refusal }
    ensures leaves { Leaves mesh.old mesh.new (link_left mesh.old chip link up) }
{
    buffer::changing::set_link(mesh, chip, link, up)
}

// Hands over a chip's error registers and empties them.
pub fn yagbolshen_read_registers(mesh: &mut [u32], chip: u32) -> RegistersRead
    ensures value { result ≡ registers_read (holds_mesh mesh.old) (mesh_of mesh.old) chip }
    ensures leaves { Leaves mesh.old mesh.new (registers_left mesh.old chip) }
{
    buffer::changing::read_registers(mesh, chip)
}

// One of a chip's ten counters.
pub fn yagbolshen_read_counter(mesh: &[u32], chip: u32, counter: u32) -> CountRead
    ensures { result ≡ count_read (holds_mesh mesh.now) (mesh_of mesh.now) chip counter }
{
    buffer::looking::read_counter(mesh, chip, counter)
}

// The mesh's size, phase and monitor, and how many packets are in flight.
pub fn yagbolshen_mesh(mesh: &[u32]) -> MeshRead
    ensures { result ≡ mesh_read (holds_mesh mesh.now) (mesh_of mesh.now) }
{
    buffer::looking::look_mesh(mesh)
}

// One directed link of a chip: whether it is up, how many packets it holds, whether it is ready.
pub fn yagbolshen_link(mesh: &[u32], chip: u32, link: u32) -> LinkRead
    ensures { result ≡ link_read (holds_mesh mesh.now) (mesh_of mesh.now) chip link }
{
    buffer::looking::look_link(mesh, chip, link)
}

// The packet at a place of a directed link, 0 the oldest.
pub fn yagbolshen_flight(mesh: &[u32], chip: u32, link: u32, place: u32) -> FlightRead
    ensures { result ≡ flight_read (holds_mesh mesh.now) (mesh_of mesh.now) chip link place }
{
    buffer::looking::look_flight(mesh, chip, link, place)
}

// Writes the record of a call at the start of a trace's room.
pub fn yagbolshen_write_record(trace: &mut [u8], call: Call) -> Written
    ensures value { result ≡ written_of (length trace.old) call }
    ensures trace_after { trace.new ≡ written_on call trace.old }
{
    records::writing::write_record(trace, call)
}

// The record at the start of a trace.
pub fn yagbolshen_read_record(trace: &[u8]) -> Record
    ensures { result ≡ record_read trace.now }
{
    records::reading::read_record(trace)
}

// Makes the calls that a trace keeps, up to the first refusal.
pub fn yagbolshen_replay(
    mesh: &mut [u32],
    log: &mut [u32],
    trace: &[u8],
    tables: &Tables<'_>,
    room: &mut [u32],
) -> Replayed
    ensures replays { Replays mesh.old mesh.new log.old log.new result (replay_of mesh.old (with_room tables.now (length room.old)) (length log.old) trace.now) }
    ensures room_after { room.new ≡ replay_room mesh.old (with_room tables.now (length room.old)) (length log.old) trace.now room.old }
{
    trace::replaying::replay(mesh, log, trace, tables, room)
}

// Fills all P2P codes of a mesh by flooding over its up links.
pub fn yagbolshen_flood(mesh: &[u32], codes: &mut [u8]) -> Result<(), Refused>
    ensures value { told result ≡ flood_refusal (holds_mesh mesh.now) (mesh_of mesh.now) codes.old }
    ensures codes_after { codes.new ≡ flooded (holds_mesh mesh.now) (mesh_of mesh.now) codes.old }
{
    flood::flooding::flood(mesh, codes)
}

// The rows of a table made fewer, with the numbers of those that went.
pub fn yagbolshen_fewer(rows: &[u32], left: &mut [u32], gone: &mut [u32]) -> Fewer
    ensures value { result ≡ fewer_of rows.now left.old gone.old }
    ensures left_after { left.new ≡ left_after rows.now left.old gone.old }
    ensures gone_after { gone.new ≡ gone_after rows.now left.old gone.old }
{
    fewer::call::fewer(rows, left, gone)
}

// The rows that lead a packet from a source chip to the processors of a list of chips.
pub fn yagbolshen_tree(
    width: u32,
    height: u32,
    source: u32,
    key: u32,
    mask: u32,
    targets: &[u32],
    rows: &mut [u32],
    starts: &mut [u32],
) -> Tree
    ensures value { result ≡ tree_of width height source key mask targets.now rows.old starts.old }
    ensures rows_after { rows.new ≡ rows_after width height source key mask targets.now rows.old starts.old }
    ensures starts_after { starts.new ≡ starts_after width height source key mask targets.now rows.old starts.old }
{
    tree::call::tree(width, height, source, key, mask, targets, rows, starts)
}
