// The one-router call: it takes anything, and answers or refuses.
ghost use Rattle.std.specs.Prelude.{◌≡◌, IfOk, cond, not, ◌&&◌, eqb, length, ◌/◌, ◌≤◌};
ghost use Rattle.packet.specs.Bytes.{as_taken};
ghost use Rattle.packet.specs.Refusal.{first_of};
ghost use Rattle.packet.specs.Refused.{told};
ghost use Rattle.tables.specs.Accept.{few_rows, routes_fine, route_fine, rows_fine};
ghost use Rattle.groups.specs.Room.{room_short};
ghost use Rattle.steps.specs.Deciding.{Checked, no_outcome, outcome_of};
ghost use Rattle.router.specs.Call.{setting_fine, source_fine, setting_refusals, checked_of, place_of, pass_of};

use super::Pass;
use super::showing::shown;
use groups::lending::short_for;
use packet::Packet;
use packet::bytes::packet_to_pass;
use packet::refused::{Refused, told};
use steps::deciding::{decide, no_outcome};
use steps::errors::{errors_of, stamped_of};
use steps::wants::wanted_of;
use steps::{Outcome, Setting};
use tables::accept::{MOST_ROWS, codes_fine, route_fine, routes_fine, rows_fine};
use tables::lent::ChipTables;
use tables::places::route_place;
use tables::size::{chips, size_fine};

// One pass of one router. Refusals, the first that applies: 7 size, 6 phase, ready set or monitor, 16 too many rows, 17 route bits,
// 18 fixed route, 11 codes, 29 room, 1 source, 2 length, 4 NN with T = 1. Groups never pay for one packet: of the room that is lent only
// the length counts, and it stays as it came.
pub fn pass(bytes: &[u8], source: u32, tables: &ChipTables<'_>, t: Setting, room: usize) -> Pass
    ensures { result ≡ pass_of bytes.now source tables.now t room }
{
    let taken = checked(bytes, source, tables, t, room);
    let refusal = told(taken);
    let o = outcome_unless(taken, source, tables, t);
    let place = place_of(refusal, tables.rows());
    shown(refusal, place, o)
}

// What a pass does, or nothing where it is refused. The steps stand here as in `outcome_of`, which the mesh calls: with two callers
// the compiler would not put it in place in either.
fn outcome_unless(
    taken: Result<Packet, Refused>,
    source: u32,
    tables: &ChipTables<'_>,
    t: Setting,
) -> Outcome
    requires { IfOk taken (λ p. Checked p source tables.now t) }
    ensures { result ≡ cond (eqb (as_taken taken).refusal 0) (outcome_of (as_taken taken).packet source tables.now t) no_outcome }
{
    match taken {
        Ok(p) => {
            let errors = errors_of(p, source, t.phase);
            let stamped = stamped_of(p, source, errors, t.phase);
            let wanted = wanted_of(errors, p, source, tables, t);
            decide(errors, stamped, source, t.phase, wanted, t.ready)
        }
        Err(_) => no_outcome(),
    }
}

// The packet where nothing is refused, or the first refusal.
fn checked(
    bytes: &[u8],
    source: u32,
    tables: &ChipTables<'_>,
    t: Setting,
    room: usize,
) -> Result<Packet, Refused>
    ensures { as_taken result ≡ checked_of bytes.now source tables.now t room }
{
    setting_refusal(source, tables, t, room)?;
    packet_to_pass(bytes)
}

fn setting_refusal(
    source: u32,
    tables: &ChipTables<'_>,
    t: Setting,
    room: usize,
) -> Result<(), Refused>
    ensures { told result ≡ first_of (setting_refusals source tables.now t room) }
{
    if !size_fine(t.width, t.height) {
        return Err(Refused::Size);
    }
    if !setting_fine(t) {
        return Err(Refused::OutOfRange);
    }
    rows_refusal(tables.rows(), tables.fixed())?;
    if !codes_fine(tables.codes(), chips(t.width, t.height)) {
        return Err(Refused::Codes);
    }
    last_refusal(source, tables.rows().len() / 3, room)
}

// One chip's rows and its fixed route at once: where they are fine, which is mostly so, nothing more is asked.
fn rows_refusal(rows: &[u32], fixed: u32) -> Result<(), Refused>
    ensures { told result ≡ cond (not (few_rows (length rows.now / 3))) 16 (cond (not (routes_fine rows.now)) 17 (cond (not (route_fine fixed)) 18 0)) }
{
    if rows_fine(rows) & route_fine(fixed) {
        return Ok(());
    }
    if MOST_ROWS < rows.len() / 3 {
        return Err(Refused::ManyRows);
    }
    if !routes_fine(rows) {
        return Err(Refused::RouteBits);
    }
    Err(Refused::FixedRoutes)
}

// What comes after the tables: the room for so many rows, and the source.
fn last_refusal(source: u32, rows: usize, room: usize) -> Result<(), Refused>
    requires { rows ≤ 1024 }
    ensures { told result ≡ cond (room_short room rows) 29 (cond (not (source_fine source)) 1 0) }
{
    if short_for(room, rows) {
        return Err(Refused::GroupsRoom);
    }
    if !source_fine(source) {
        return Err(Refused::Source);
    }
    Ok(())
}

// Where a refusal holds: the first bad row for 17, and 0 for all others.
fn place_of(refusal: u32, rows: &[u32]) -> u32
    requires { refusal ≡ 17 → length rows.now / 3 ≤ 1024 }
    ensures { result ≡ place_of refusal rows.now }
{
    if refusal == 17 {
        return route_place(rows) as u32;
    }
    0
}

fn setting_fine(t: Setting) -> bool
    ensures { result ≡ setting_fine t }
{
    (t.phase <= 3) & (t.ready <= 63) & (t.monitor <= 19)
}

fn source_fine(source: u32) -> bool
    ensures { result ≡ source_fine source }
{
    (source <= 5) | (source == 7)
}
