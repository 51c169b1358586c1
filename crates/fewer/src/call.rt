// The call: what it refuses, and the process over the rows in hand.
ghost use Rattle.std.specs.Prelude.{◌≡◌, cond, eqb, length, ◌/◌, ◌≤◌, IfOk};
ghost use Rattle.packet.specs.Refusal.{first_of};
ghost use Rattle.packet.specs.Refused.{number_of, told};
ghost use Rattle.tables.specs.Places.{route_place};
ghost use Rattle.tables.specs.Rows.{rows_of};
ghost use Rattle.fewer.specs.Process.{ended};
ghost use Rattle.fewer.specs.Call.{fewer_refusals, fewer_of, left_after, gone_after};
ghost use Rattle.fewer.specs.Hand.{Shortened};

use super::hand::{give_back, take_in};
use super::joining::join_all;
use super::taking_out::take_out;
use super::{Fewer, Held};
use packet::refused::Refused;
use tables::accept::routes_fine;
use tables::places::route_place;

// The most rows that are taken.
const MOST_ROWS: usize = 16384;

// What stands in hand before a row does.
const BLANK: Held = Held {
    key: 0,
    mask: 0,
    route: 0,
    number: 0,
};

// Writes the rows that are left, three words each, and the numbers of those that went, in the order in which they went. Refusals, the first that applies: 16 above 16,384 rows, 17 a route
// that names nothing or no whole number of rows, 28 room for fewer rows or numbers than go in; then nothing is written.
pub fn fewer(rows: &[u32], left: &mut [u32], gone: &mut [u32]) -> Fewer
    ensures value { result ≡ fewer_of rows.now left.old gone.old }
    ensures left_after { left.new ≡ left_after rows.now left.old gone.old }
    ensures gone_after { gone.new ≡ gone_after rows.now left.old gone.old }
{
    match rows_taken(rows, left.len(), gone.len()) {
        Ok(count) => {
            let end = shorten(rows, left, &mut gone[..count]);
            Fewer {
                refusal: 0,
                rows: end as u32,
                gone: (count - end) as u32,
                place: 0,
            }
        }
        Err(refused) => Fewer {
            refusal: u32::from(refused),
            rows: 0,
            gone: 0,
            place: place_of(rows, refused),
        },
    }
}

// How many rows are taken.
fn rows_taken(rows: &[u32], left_room: usize, gone_room: usize) -> Result<usize, Refused>
    ensures value { told result ≡ first_of (fewer_refusals rows.now left_room gone_room) }
    ensures few { (told result ≡ 16 → ⊥) → length rows.now / 3 ≤ 16384 }
    ensures room { IfOk result (λ n. (n ≡ length rows.now / 3) × ((length rows.now ≤ left_room) × (n ≤ gone_room))) }
{
    let count = rows.len() / 3;
    if MOST_ROWS < count {
        return Err(Refused::ManyRows);
    }
    if !routes_fine(rows) {
        return Err(Refused::RouteBits);
    }
    if left_room < rows.len() {
        return Err(Refused::FewerRoom);
    }
    if gone_room < count {
        return Err(Refused::FewerRoom);
    }
    Ok(count)
}

// The row is told with 17 alone.
fn place_of(rows: &[u32], refused: Refused) -> u32
    requires { (number_of refused ≡ 16 → ⊥) → length rows.now / 3 ≤ 16384 }
    ensures { result ≡ cond (eqb (number_of refused) 17) (route_place rows.now) 0 }
{
    match refused {
        Refused::RouteBits => route_place(rows) as u32,
        _ => 0,
    }
}

// How many rows are left at the end of the process, with them and the numbers of the others written.
fn shorten(rows: &[u32], left: &mut [u32], gone: &mut [u32]) -> usize
    requires { (length rows.now / 3 ≤ 16384) × ((length rows.now ≤ length left.old) × (length gone.old ≡ length rows.now / 3)) }
    ensures { Shortened (ended (rows_of rows.now)) left.old gone.old left.new gone.new result }
{
    let mut held = [BLANK; MOST_ROWS];
    take_in(&mut held, rows);
    let staying = take_out(&mut held, gone, rows.len() / 3);
    let end = join_all(&mut held, gone, staying);
    give_back(&held[..end], left);
    end
}
