// Case 14, and of case 15 the half about a link: W 2, H 1, F 2, and every chip has a row for key 1 to link 0.
ghost use Rattle.std.specs.Prelude.{◌≡◌};
ghost use Rattle.known_passes.specs.TwoChips as case;

use buffer::looking::{look_link, look_mesh, read_counter};
use buffer::moving::{inject, round};
use buffer::opening::open;
use mesh::lent::Tables;

// No mesh needs more than 4,096 words a chip and 1,024 besides.
const WORDS: usize = 9216;

const P: [u8; 5] = [0, 0, 0, 0, 1];

// A row for each chip: key 1, every bit of it, to link 0.
const ROWS: [u32; 6] = [1, 4294967295, 1, 1, 4294967295, 1];

const STARTS: [u32; 3] = [0, 1, 2];

const CODES: [u8; 4] = [6, 6, 6, 6];

const FIXED: [u32; 2] = [0, 0];

const AGE: u32 = 2;

const SENT: u32 = 5;

// P, injected after 3 rounds, crosses 4 links, and ends at the fourth further round: the same from either chip.
pub fn case_14() -> bool
    ensures { result ≡ case.case14 }
{
    crosses_four(0, 1) & crosses_four(1, 0)
}

// A chip sends 7 packets on one link, with no round between: the link is ready before each of them, and not after the last.
pub fn link_fills() -> bool
    ensures { result ≡ case.link_fills }
{
    let mut mesh = [0u32; WORDS];
    let mut right = open(&mut mesh, 2, 1, 2, 0).is_ok();
    for held in 0..7 {
        right = right & link_is(&mesh, held, 1) & injected(&mut mesh, 0);
    }
    right & link_is(&mesh, 7, 0)
}

fn crosses_four(chip: u32, other: u32) -> bool
    ensures { result ≡ case.crosses_four chip other }
{
    let mut mesh = [0u32; WORDS];
    let opened = open(&mut mesh, 2, 1, 2, 0).is_ok();
    let waited = three_pass_on(&mut mesh, 0);
    let crossing = injected(&mut mesh, chip)
        & (in_flight(&mesh) == 1)
        & three_pass_on(&mut mesh, 1);
    opened & waited & crossing & ends(&mut mesh, chip) & counted(&mesh, chip, other)
}

// Three rounds, each of which leaves so much in flight.
fn three_pass_on(mesh: &mut [u32; WORDS], flying: u32) -> bool
    ensures value { result ≡ case.three_pass_on (case.held_in mesh.old) flying }
    ensures mesh_after { case.held_in mesh.new ≡ case.third (case.held_in mesh.old) }
{
    passes_on(mesh, flying) & passes_on(mesh, flying) & passes_on(mesh, flying)
}

// Whether a round adds no record to the log and leaves so much in flight.
fn passes_on(mesh: &mut [u32; WORDS], flying: u32) -> bool
    ensures value { result ≡ case.passes_on (case.held_in mesh.old) flying }
    ensures mesh_after { case.held_in mesh.new ≡ case.next (case.held_in mesh.old) }
{
    let mut log = [0u32; 6];
    let mut none = [0u32; 0];
    let tables = Tables::new(&ROWS, &STARTS, &CODES, &FIXED);
    let r = round(mesh, &mut log, &tables, &mut none);
    (r.refusal == 0) & (r.added == 0) & (in_flight(mesh) == flying)
}

// Whether a round leaves nothing in flight, and adds one record, that the packet was too old at a chip.
fn ends(mesh: &mut [u32; WORDS], chip: u32) -> bool
    ensures value { result ≡ case.ends (case.held_in mesh.old) chip }
    ensures mesh_after { case.held_in mesh.new ≡ case.next (case.held_in mesh.old) }
{
    let mut log = [0u32; 6];
    let mut none = [0u32; 0];
    let tables = Tables::new(&ROWS, &STARTS, &CODES, &FIXED);
    let r = round(mesh, &mut log, &tables, &mut none);
    (r.refusal == 0) & (r.added == 1) & (in_flight(mesh) == 0) & too_old(&log, chip)
}

// Whether P is taken at a chip, with no record added.
fn injected(mesh: &mut [u32; WORDS], chip: u32) -> bool
    ensures value { result ≡ case.added (case.inject (case.held_in mesh.old) chip) 0 }
    ensures mesh_after { case.held_in mesh.new ≡ case.after (case.held_in mesh.old) (case.inject (case.held_in mesh.old) chip) }
{
    let mut log = [0u32; 6];
    let tables = Tables::new(&ROWS, &STARTS, &CODES, &FIXED);
    let r = inject(mesh, &mut log, chip, &P, &tables, 0);
    (r.refusal == 0) & (r.added == 0)
}

fn in_flight(mesh: &[u32; WORDS]) -> u32
    ensures { result ≡ case.flight (case.held_in mesh.now) }
{
    look_mesh(mesh).in_flight
}

// Whether both chips sent twice, and the chip where the packet ended, that alone, found it too old, once.
fn counted(mesh: &[u32; WORDS], chip: u32, other: u32) -> bool
    ensures { result ≡ case.counted (case.held_in mesh.now) chip other }
{
    counter_is(mesh, 0, SENT, 2)
        & counter_is(mesh, 1, SENT, 2)
        & counter_is(mesh, chip, AGE, 1)
        & counter_is(mesh, other, AGE, 0)
}

fn counter_is(mesh: &[u32; WORDS], chip: u32, counter: u32, count: u32) -> bool
    ensures { result ≡ case.counts (case.held_in mesh.now) chip counter count }
{
    let r = read_counter(mesh, chip, counter);
    (r.refusal == 0) & (r.count == count)
}

// Whether the log holds P, stamped 01, delivered to processor 0 of a chip, the monitor, with the flag of age.
fn too_old(log: &[u32; 6], chip: u32) -> bool
    ensures { result ≡ case.too_old log.now chip }
{
    (log[0] == chip) & (log[1] == 1) & (log[2] == 2) & (log[3] == 5) & (log[4] == 1) & (log[5] == 0)
}

// Whether link 0 of chip 0 is up, holds so many and is so ready.
fn link_is(mesh: &[u32; WORDS], held: u32, ready: u32) -> bool
    ensures { result ≡ case.link_is (case.held_in mesh.now) held ready }
{
    let r = look_link(mesh, 0, 0);
    (r.refusal == 0) & (r.up == 1) & (r.held == held) & (r.ready == ready)
}
