// Case 13, and of case 15 the half about rows: one router, all links ready.
ghost use Rattle.std.specs.Prelude.{◌≡◌};
ghost use Rattle.known_passes.specs.OneRouter.{pass_with, refusal_with, is_refused, parity_wrong, case13, rows_fit};

use packet::reading::read;
use router::Pass;
use router::call::pass;
use steps::Setting;
use tables::lent::ChipTables;

// Lengths 0, 4, 6 and 10 are refused with 2, and C0 00 00 00 00, a fixed-route packet whose parity is even, is a parity error.
pub fn case_13() -> bool
    ensures { result ≡ case13 }
{
    let ten: [u8; 10] = [0, 0, 0, 0, 1, 0, 0, 0, 0, 0];
    let even: [u8; 5] = [192, 0, 0, 0, 0];
    refused(&ten[..0], 2)
        & refused(&ten[..4], 2)
        & refused(&ten[..6], 2)
        & refused(&ten, 2)
        & parity_wrong(&even)
}

// 1,024 rows pass, and 1,025 are refused with 16.
pub fn rows_fit() -> bool
    ensures { result ≡ rows_fit }
{
    let bytes: [u8; 5] = [0, 0, 0, 0, 1];
    let rows = [0u32; 3075];
    (refusal_with(&bytes, &rows[..3072]) == 0) & (refusal_with(&bytes, &rows) == 16)
}

// Whether reading and the pass both refuse the bytes with this number.
fn refused(bytes: &[u8], number: u32) -> bool
    ensures { result ≡ is_refused bytes.now number }
{
    let rows: [u32; 0] = [];
    (read(bytes).refusal == number) & (refusal_with(bytes, &rows) == number)
}

// Whether reading and the pass take the bytes, and parity is the pass's one error.
fn parity_wrong(bytes: &[u8]) -> bool
    ensures { result ≡ parity_wrong bytes.now }
{
    let rows: [u32; 0] = [];
    let r = pass_with(bytes, &rows);
    (read(bytes).refusal == 0) & (r.refusal == 0) & (r.errors == 1)
}

fn refusal_with(bytes: &[u8], rows: &[u32]) -> u32
    ensures { result ≡ refusal_with bytes.now rows.now }
{
    pass_with(bytes, rows).refusal
}

// The pass of a packet from link 0: one chip, all links ready.
fn pass_with(bytes: &[u8], rows: &[u32]) -> Pass
    ensures { result ≡ pass_with bytes.now rows.now }
{
    let codes: [u8; 1] = [6];
    let t = Setting {
        width: 1,
        height: 1,
        monitor: 0,
        phase: 0,
        ready: 63,
    };
    pass(bytes, 0, &ChipTables::new(rows, &codes, 0), t, 0)
}
