// The route of a row: its links and processors, as bits 0 to 5 and 6 to 25.
use super::complaints::{Wanted, Wrong};
use super::names::link_named;
use super::numbers::digits;
use super::words::Words;

impl<'a> Words<'a> {
    // The route that all words that are left name. None is an empty route.
    pub fn route(self) -> Result<u32, Wrong<'a>> {
        let mut route = 0;
        for w in self {
            route |= bits_of(w).ok_or(Wanted::Route.at(w))?;
        }
        Ok(route)
    }
}

fn bits_of(w: &[u8]) -> Option<u32> {
    match link_named(w) {
        Some(link) => Some(bit(link)),
        None => processors(w),
    }
}

// The processors that p3 or p3-7 names, as bits of a route: never an empty set.
pub fn processors(w: &[u8]) -> Option<u32> {
    let [b'p' | b'P', run @ ..] = w else {
        return None;
    };
    match run.iter().position(|b| *b == b'-') {
        Some(dash) => span(
            digits(&run[..dash], 0, false)?,
            digits(run, dash + 1, false)?,
        ),
        None => {
            let only = digits(run, 0, false)?;
            span(only, only)
        }
    }
}

// The route bits of the processors from one to another.
fn span(low: u32, high: u32) -> Option<u32> {
    if (low <= high) & (high < 20) {
        Some(bit(high + 7).wrapping_sub(bit(low + 6)))
    } else {
        None
    }
}

// Whether a route, or another set of 32 bits, has a bit.
pub fn has(set: u32, i: u32) -> bool {
    set & bit(i) != 0
}

fn bit(i: u32) -> u32 {
    1u32.checked_shl(i).unwrap_or(0)
}
