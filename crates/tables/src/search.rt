// The search through an MC table, lent as one slice of numbers, three a row: key, mask, route; or as one slice of rows.
ghost use Rattle.std.specs.Prelude.{◌≡◌, length, get_or, ◌+◌, ◌*◌, ◌<◌};
ghost use Rattle.tables.specs.Rows.{matches, rows_of, numbers_of, first_match, route_for, found_in};

use super::{Row, RowFound};

// The route of the first row that matches the key, none where no row does.
pub fn route_for(rows: &[u32], key: u32) -> Option<u32>
    ensures { result ≡ route_for key (rows_of rows.now) }
{
    let n = first_match(rows, key)?;
    Some(route_at(rows, n))
}

// The number of the first row that matches the key: four rows a turn, for fewer steps a row. Speed keeps the index: `position` over
// `chunks_exact(3)` takes up to a half longer.
pub fn first_match(rows: &[u32], key: u32) -> Option<usize>
    ensures { result ≡ first_match key (rows_of rows.now) }
{
    let fours = rows.len() / 12;
    for j in 0..fours {
        let i = j * 4;
        if matches_at(rows, i, key) {
            return Some(i);
        }
        if matches_at(rows, i + 1, key) {
            return Some(i + 1);
        }
        if matches_at(rows, i + 2, key) {
            return Some(i + 2);
        }
        if matches_at(rows, i + 3, key) {
            return Some(i + 3);
        }
    }
    for i in fours * 4..rows.len() / 3 {
        if matches_at(rows, i, key) {
            return Some(i);
        }
    }
    None
}

// The same search through a table lent as a slice of rows. The number of a row is given modulo 2^32.
pub fn find(rows: &[Row], key: u32) -> RowFound
    ensures { result ≡ found_in key rows.now }
{
    match first_row(rows, key) {
        Some(i) => RowFound {
            found: 1,
            row: (i % 4294967296) as u32,
            route: rows[i].route,
        },
        None => RowFound::default(),
    }
}

// The number of the first row of a slice of rows that matches the key.
fn first_row(rows: &[Row], key: u32) -> Option<usize>
    ensures { result ≡ first_match key (rows_of (numbers_of rows.now)) }
{
    rows.iter()
        .position(|row| matches_row(key, row.key, row.mask))
}

pub fn route_at(rows: &[u32], n: usize) -> u32
    requires { n * 3 + 2 < length rows.now }
    ensures { result ≡ get_or rows.now (n * 3 + 2) 0 }
{
    rows[n * 3 + 2]
}

pub fn matches_at(rows: &[u32], i: usize, key: u32) -> bool
    requires { i * 3 + 2 < length rows.now }
    ensures { result ≡ matches key (get_or rows.now (i * 3) 0) (get_or rows.now (i * 3 + 1) 0) }
{
    matches_row(key, rows[i * 3], rows[i * 3 + 1])
}

fn matches_row(key: u32, row_key: u32, mask: u32) -> bool
    ensures { result ≡ matches key row_key mask }
{
    (key & mask) == row_key
}
