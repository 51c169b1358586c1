// The rows in hand: those of a table, each with the number that it first had.
ghost use Rattle.std.specs.Prelude.{◌≡◌, ◌++◌, ◌∷◌, length, get_or, take, drop, ◌+◌, ◌*◌, ◌/◌, ◌≤◌, ◌<◌};
ghost use Rattle.tables.specs.Rows.{rows_of};
ghost use Rattle.fewer.specs.Process.{numbered, blank};
ghost use Rattle.fewer.specs.Call.{words_of};
ghost use Rattle.fewer.specs.Hand.{numbered_of, held_of};

use super::Held;

// Every row of a table, with its number.
pub fn take_in(held: &mut [Held], rows: &[u32])
    requires { (length rows.now / 3 ≤ 16384) × (length rows.now / 3 ≤ length held.old) }
    ensures { take (length rows.now / 3) (held_of held.new) ≡ numbered 0 (rows_of rows.now) }
{
    for i in 0..rows.len() / 3 {
        held[i] = numbered_row(rows, i);
    }
}

// The rows in hand, three words each.
pub fn give_back(held: &[Held], left: &mut [u32])
    requires { length held.now * 3 ≤ length left.old }
    ensures { left.new ≡ words_of (held_of held.now) ++ drop (length held.now * 3) left.old }
{
    for (i, row) in held.iter().enumerate() {
        give_one(left, i, *row);
    }
}

fn numbered_row(rows: &[u32], i: usize) -> Held
    requires { (i * 3 + 2 < length rows.now) × (i ≤ 16384) }
    ensures { numbered_of result ≡ get_or (numbered 0 (rows_of rows.now)) i blank }
{
    let at = i * 3;
    Held {
        key: rows[at],
        mask: rows[at + 1],
        route: rows[at + 2],
        number: i as u32,
    }
}

fn give_one(left: &mut [u32], i: usize, row: Held)
    requires { i * 3 + 2 < length left.old }
    ensures { left.new ≡ take (i * 3) left.old ++ row.key ∷ row.mask ∷ row.route ∷ drop (i * 3 + 3) left.old }
{
    let at = i * 3;
    left[at] = row.key;
    left[at + 1] = row.mask;
    left[at + 2] = row.route;
}
