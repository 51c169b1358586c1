// What is tested of the memory that is lent: once for a call, and once for a run of calls that leaves tables and mesh as good as they were.
ghost use Rattle.std.specs.Prelude.{◌≡◌, ◌/◌, ◌≤◌, not, ◌&&◌, length, if◌then◌else◌};
ghost use Rattle.packet.specs.Refusal.{first_of};
ghost use Rattle.mesh.specs.Lending.{with_room};
ghost use Rattle.tables.specs.Accept.{starts_right, rows_few, starts_fine, routes_fine, fixed_fine};
ghost use Rattle.mesh.specs.Refusals.{tables_refusals, place_in};
ghost use Rattle.packet.specs.Refused.{number_of, told};
ghost use Rattle.buffer.specs.Testing.{numbers_of, tested_of, Sized};

use super::holding::holds;
use groups::lending::room_short;
use links::offsets::{HEIGHT, WIDTH};
use mesh::lent::Tables;
use packet::refused::Refused;
use tables::accept::{codes_fine, fixed_fine, routes_fine, starts_fine};
use tables::places::{crowd_place, fixed_place, route_place, starts_place};
use tables::size::chips;

// Why tables are refused, and the first place where, 0 for a reason that has none.
#[derive(Clone, Copy)]
pub struct Wrong {
    pub refused: Refused,
    pub place: u32,
}

// Whether the tables are accepted for the mesh in the buffer; none where it holds no mesh.
pub type Tested = Option<Result<(), Wrong>>;

pub fn test(mesh: &[u32], tables: &Tables<'_>, room: usize) -> Tested
    ensures { numbers_of result ≡ tested_of mesh.now (with_room tables.now room) }
{
    if !holds(mesh) {
        return None;
    }
    let all = chips(mesh[WIDTH], mesh[HEIGHT]);
    if let Err(refused) = tables_refusal(tables, all, room) {
        let place = place_in(tables, all, refused);
        return Some(Err(Wrong { refused, place }));
    }
    Some(Ok(()))
}

fn tables_refusal(tables: &Tables<'_>, chips: usize, room: usize) -> Result<(), Refused>
    requires { (1 ≤ chips) × (chips ≤ 144) }
    ensures { told result ≡ first_of (tables_refusals (with_room tables.now room) chips) }
{
    if !rows_lent(tables, chips) {
        return Err(lent_refusal(tables, chips));
    }
    if !codes_fine(tables.codes(), chips * chips) {
        return Err(Refused::Codes);
    }
    if room_short(room, tables.starts(), chips) {
        return Err(Refused::GroupsRoom);
    }
    Ok(())
}

// Starts, rows and fixed routes at once: where they are fine, which is mostly so, nothing more is asked.
fn rows_lent(tables: &Tables<'_>, chips: usize) -> bool
    ensures { result ≡ (starts_fine tables.now.starts chips (length tables.now.rows / 3) && routes_fine tables.now.rows && fixed_fine tables.now.fixed chips) }
{
    let rows = tables.rows();
    if !starts_fine(tables.starts(), chips, rows.len() / 3) {
        return false;
    }
    routes_fine(rows) & fixed_fine(tables.fixed(), chips)
}

// Which of them is not fine, the first that applies.
fn lent_refusal(tables: &Tables<'_>, chips: usize) -> Refused
    requires { 1 ≤ chips }
    ensures { number_of result ≡ (if not (starts_right tables.now.starts chips (length tables.now.rows / 3)) then 15 else (if not (rows_few tables.now.starts) then 16 else (if not (routes_fine tables.now.rows) then 17 else 18))) }
{
    let rows = tables.rows();
    let starts = tables.starts();
    if starts_place(starts, chips, rows.len() / 3) <= chips {
        return Refused::Starts;
    }
    if crowd_place(starts, chips) < chips {
        return Refused::ManyRows;
    }
    if !routes_fine(rows) {
        return Refused::RouteBits;
    }
    Refused::FixedRoutes
}

// The first place where the tables are refused for a reason, 0 for one that has none.
fn place_in(tables: &Tables<'_>, chips: usize, refused: Refused) -> u32
    requires { (1 ≤ chips) × ((chips ≤ 144) × Sized tables.now.starts chips (length tables.now.rows / 3) (number_of refused)) }
    ensures { result ≡ place_in tables.now chips (number_of refused) }
{
    match refused {
        Refused::Starts => starts_place(tables.starts(), chips, tables.rows().len() / 3) as u32,
        Refused::ManyRows => crowd_place(tables.starts(), chips) as u32,
        Refused::RouteBits => route_place(tables.rows()) as u32,
        Refused::FixedRoutes => fixed_place(tables.fixed(), chips) as u32,
        _ => 0,
    }
}
