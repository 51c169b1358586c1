// What makes lent tables acceptable.
ghost use Rattle.std.specs.Prelude.{◌≡◌, ◌&&◌, eqb, ltb, length, drop, ◌+◌, ◌*◌, ◌/◌, ◌≤◌, ◌<◌};
ghost use Rattle.std.specs.Int.Bits.{bit_and};
ghost use Rattle.tables.specs.Rows.{rows_of};
ghost use Rattle.tables.specs.Accept.{route_fine, all_routes, routes_fine, fixed_fine, rows_fine, all_codes, codes_fine, above_seven, starts_fine, SideBySide};

use super::search::route_at;

// The most rows that a chip's table has.
pub const MOST_ROWS: usize = 1024;

// The lowest route bit that names neither a link nor a processor.
pub const ROUTES: u32 = 0x0400_0000;

// In each of eight bytes, the bits that no code has set.
const ABOVE_SEVEN: u64 = 0xf8f8_f8f8_f8f8_f8f8;

// One chip's rows: a whole number of them, at most 1,024, no route bit 26 to 31.
pub fn rows_fine(rows: &[u32]) -> bool
    ensures { result ≡ rows_fine rows.now }
{
    rows.len() / 3 <= MOST_ROWS && routes_fine(rows)
}

// Rows of any number of chips: a whole number of them, no route bit 26 to 31. Eight rows a turn, joined in two numbers so that
// neither waits for the other, then what is left of them. Speed keeps the index: a fold over `chunks_exact(3)` takes up to twice as long.
pub fn routes_fine(rows: &[u32]) -> bool
    ensures { result ≡ routes_fine rows.now }
{
    if rows.len() % 3 != 0 {
        return false;
    }
    let eights = rows.len() / 3 / 8;
    let mut joined = 0;
    let mut other = 0;
    for i in 0..eights {
        joined |= four_routes(rows, i * 8);
        other |= four_routes(rows, i * 8 + 4);
    }
    last_routes(rows, joined | other) < ROUTES
}

// One route: no bit 26 to 31.
pub fn route_fine(route: u32) -> bool
    ensures { result ≡ route_fine route }
{
    route < ROUTES
}

// Fixed routes: as many as asked for, no bit 26 to 31 in any.
pub fn fixed_fine(fixed: &[u32], count: usize) -> bool
    ensures { result ≡ fixed_fine fixed.now count }
{
    fixed.len() == count && fixed.iter().fold(0, |joined, route| joined | route) < ROUTES
}

// P2P codes: as many as asked for, none above 7. Eight of them a turn, as one number, then what is left of them. The law `EightCodes.beside` is of
// these numbers, and with a fold over the codes one by one a pass takes a twentieth more instructions.
pub fn codes_fine(codes: &[u8], count: usize) -> bool
    ensures { result ≡ codes_fine codes.now count }
{
    if codes.len() != count {
        return false;
    }
    let eights = codes.len() / 8;
    let mut joined = 0;
    for i in 0..eights {
        joined |= eight_codes(codes, i * 8);
    }
    last_codes(codes, joined) & ABOVE_SEVEN == 0
}

// Where each chip's rows start: the first at 0, none before the one before it, at most 1,024 rows a chip, the last the number of rows. Speed keeps
// the index and the `&`: a fold over `windows(2)` takes a sixth longer, `all` over them two thirds.
pub fn starts_fine(starts: &[u32], chips: usize, rows: usize) -> bool
    ensures { result ≡ starts_fine starts.now chips rows }
{
    if starts.len() == 0 {
        return false;
    }
    if starts.len() - 1 != chips {
        return false;
    }
    let mut fine = starts[0] == 0;
    for i in 0..chips {
        let start = starts[i] as usize;
        let next = starts[i + 1] as usize;
        fine &= (start <= next) & (next <= start + MOST_ROWS);
    }
    fine & (starts[chips] as usize == rows)
}

// The routes of four rows joined: they are fine where it is below the lowest bit that may not be set.
fn four_routes(rows: &[u32], i: usize) -> u32
    requires { (i + 3) * 3 + 2 < length rows.now }
    ensures { all_routes (rows_of (drop (i * 3) rows.now)) ≡ (ltb result 67108864 && all_routes (rows_of (drop ((i + 4) * 3) rows.now))) }
{
    route_at(rows, i) | route_at(rows, i + 1) | route_at(rows, i + 2) | route_at(rows, i + 3)
}

// What is joined so far, with the routes of the rows past the last whole eight.
fn last_routes(rows: &[u32], so_far: u32) -> u32
    ensures { (ltb so_far 67108864 && all_routes (rows_of (drop (length rows.now / 3 / 8 * 8 * 3) rows.now))) ≡ ltb result 67108864 }
{
    let count = rows.len() / 3;
    let mut joined = so_far;
    for i in count / 8 * 8..count {
        joined |= route_at(rows, i);
    }
    joined
}

// What is joined so far, with the codes past the last whole eight. Where these start is no parameter: the compiler would not see that at most
// seven are left, and would unroll the loop.
fn last_codes(codes: &[u8], so_far: u64) -> u64
    ensures { (eqb (bit_and so_far above_seven) 0 && all_codes (drop (length codes.now / 8 * 8) codes.now)) ≡ eqb (bit_and result above_seven) 0 }
{
    let mut joined = so_far;
    for i in codes.len() / 8 * 8..codes.len() {
        joined |= code_at(codes, i);
    }
    joined
}

// Codes side by side in one number, a byte each, the first one lowest.
fn eight_codes(codes: &[u8], i: usize) -> u64
    requires { i + 8 ≤ length codes.now }
    ensures { SideBySide 8 codes.now i result }
{
    four_codes(codes, i) | (four_codes(codes, i + 4) << 32)
}

fn four_codes(codes: &[u8], i: usize) -> u64
    requires { i + 4 ≤ length codes.now }
    ensures { SideBySide 4 codes.now i result }
{
    two_codes(codes, i) | (two_codes(codes, i + 2) << 16)
}

fn two_codes(codes: &[u8], i: usize) -> u64
    requires { i + 2 ≤ length codes.now }
    ensures { SideBySide 2 codes.now i result }
{
    code_at(codes, i) | (code_at(codes, i + 1) << 8)
}

fn code_at(codes: &[u8], i: usize) -> u64
    requires { i + 1 ≤ length codes.now }
    ensures { SideBySide 1 codes.now i result }
{
    u64::from(codes[i])
}
