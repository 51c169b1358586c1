// Runs the known passes that are run and not proved, through the public calls, and writes a line for each.
#![tactic(auto)]

mod one_router;
mod two_chips;

use std::io;

fn main(rt: HostRuntime) -> io::Result<()> {
    say(&rt, 13, one_router::case_13())?;
    say(&rt, 14, two_chips::case_14())?;
    say(&rt, 15, two_chips::link_fills() & one_router::rows_fit())
}

fn say(rt: &HostRuntime, number: u32, ok: bool) -> io::Result<()> {
    let answer = if ok { "ok" } else { "bad" };
    println!(rt; "{number} {answer}")
}
