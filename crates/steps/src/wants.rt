// The wanted set of a packet: by type, then by mark and NN route.
ghost use Rattle.std.specs.Prelude.{◌≡◌, ◌^◌, ◌<◌, cond, false};
ghost use Rattle.steps.specs.Links.{monitor_bit};
ghost use Rattle.tables.specs.Rows.{rows_of, route_for};
ghost use Rattle.steps.specs.Wants.{Placed, wants, miss_wanted, match_wanted, number_wanted, p2p_wanted, nn_wanted, fixed_wanted, wanted_given, wanted_of, by_rows};

use super::{Setting, Wanted};
use packet::Packet;
use packet::control::{is_mc, kind_of, mark_of, route_of};
use packet::kind::Kind;
use tables::codes::code_for;
use tables::lent::ChipTables;
use tables::search::route_for;

// Whether a packet goes by the rows.
pub fn by_rows(errors: u32, control: u32) -> bool
    ensures { result ≡ by_rows errors control }
{
    (errors == 0) & is_mc(control) & (mark_of(control) != 2)
}

// The wanted set of a packet: by the rows where it goes by them, else by its type. The one-router call uses this; the mesh's pass uses
// `looked_up` and `wanted_given`, the same in two steps, since the compiler puts in place only what has one caller.
pub fn wanted_of(errors: u32, p: Packet, source: u32, tables: &ChipTables<'_>, t: Setting) -> Wanted
    requires { (source < 8) × Placed tables.now t }
    ensures { result ≡ wanted_of errors p source tables.now t }
{
    if by_rows(errors, p.control) {
        match_wanted(
            route_for(tables.rows(), p.word),
            mark_of(p.control),
            source,
            t.monitor,
        )
    } else {
        alone(other_wanted(errors, p, source, tables, t))
    }
}

// What the rows say to a key, where it is to be looked up.
pub fn looked_up(goes: bool, key: u32, rows: &[u32]) -> Option<u32>
    ensures { result ≡ cond goes (route_for key (rows_of rows.now)) None }
{
    if goes { route_for(rows, key) } else { None }
}

// The wanted set, given what the rows say to the packet.
pub fn wanted_given(
    errors: u32,
    p: Packet,
    source: u32,
    found: Option<u32>,
    tables: &ChipTables<'_>,
    t: Setting,
) -> Wanted
    requires { (source < 8) × Placed tables.now t }
    ensures { result ≡ wanted_given errors p source found tables.now.codes tables.now.fixed t }
{
    if by_rows(errors, p.control) {
        match_wanted(found, mark_of(p.control), source, t.monitor)
    } else {
        alone(other_wanted(errors, p, source, tables, t))
    }
}

pub fn bit(i: u32) -> u32
    requires { i < 26 }
    ensures { result ≡ 2 ^ i }
{
    1 << i
}

// What a packet wants that does not go by the rows.
fn other_wanted(errors: u32, p: Packet, source: u32, tables: &ChipTables<'_>, t: Setting) -> u32
    requires { (by_rows errors p.control ≡ false) × Placed tables.now t }
    ensures { wants result ≡ wanted_given errors p source None tables.now.codes tables.now.fixed t }
{
    if errors == 0 {
        match Kind::try_from(kind_of(p.control)) {
            Ok(Kind::Mc) => 0,
            Ok(Kind::P2p) => p2p_wanted(p, tables, t),
            Ok(Kind::Nn) => nn_wanted(p, source, t.monitor),
            Ok(Kind::Fixed) | Err(_) => fixed_wanted(mark_of(p.control), tables.fixed()),
        }
    } else {
        monitor_bit(t.monitor)
    }
}

fn match_wanted(m: Option<u32>, mark: u32, source: u32, monitor: u32) -> Wanted
    requires { (source < 8) × (monitor < 20) }
    ensures { result ≡ match_wanted m mark source monitor }
{
    match m {
        Some(route) => alone(route),
        None => miss_wanted(mark, source, monitor),
    }
}

fn miss_wanted(mark: u32, source: u32, monitor: u32) -> Wanted
    requires { (source < 8) × (monitor < 20) }
    ensures { result ≡ miss_wanted mark source monitor }
{
    if source == 7 {
        let set = monitor_bit(monitor);
        return Wanted { set, missed: 1 };
    }
    match mark {
        3 => alone(bit((source + 2) % 6)),
        _ => alone(bit((source + 3) % 6)),
    }
}

fn p2p_wanted(p: Packet, tables: &ChipTables<'_>, t: Setting) -> u32
    requires { Placed tables.now t }
    ensures { result ≡ p2p_wanted p tables.now.codes t }
{
    number_wanted(
        code_for(tables.codes(), t.width, t.height, p.word % 65536),
        0,
        t.monitor,
    )
}

fn nn_wanted(p: Packet, source: u32, monitor: u32) -> u32
    requires { monitor < 20 }
    ensures { result ≡ nn_wanted p source monitor }
{
    if source == 7 {
        number_wanted(route_of(p.control), 63, monitor)
    } else {
        monitor_bit(monitor)
    }
}

fn fixed_wanted(mark: u32, fixed: u32) -> u32
    ensures { result ≡ fixed_wanted mark fixed }
{
    match mark {
        2 => 0,
        _ => fixed,
    }
}

// A P2P code or an NN route: 0 to 5 a link, 6 a set of its own, 7 the monitor.
fn number_wanted(number: u32, six: u32, monitor: u32) -> u32
    requires { monitor < 20 }
    ensures { result ≡ number_wanted number six monitor }
{
    match number {
        0..=5 => bit(number),
        6 => six,
        _ => monitor_bit(monitor),
    }
}

fn alone(set: u32) -> Wanted
    ensures { result ≡ wants set }
{
    Wanted { set, missed: 0 }
}

fn monitor_bit(monitor: u32) -> u32
    requires { monitor < 20 }
    ensures { result ≡ monitor_bit monitor }
{
    bit(6 + monitor)
}
