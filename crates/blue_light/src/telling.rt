// What the story writes.
use super::board::{CHIPS, Totals, WORDS, mark_on, watched_link};
use buffer::looking::{look_link, look_mesh};
use packet::control::mark_of;
use std::io;

pub fn title(rt: &HostRuntime, mesh: &[u32; WORDS]) -> io::Result<()> {
    let m = look_mesh(mesh);
    println!(rt;
        "A mesh of {} by {} chips. One chip sends to another, two links to the east.",
        m.width, m.height
    )?;
    println!(rt; "The light is that of the second of these links.")
}

// What the columns of a packet's steps say.
pub fn heading(rt: &HostRuntime, packet: &str) -> io::Result<()> {
    println!(rt; "\n{packet:<42}mark  light")
}

// A step of the packet: where it was handed over, and by which link it is on its way.
pub fn step(rt: &HostRuntime, mesh: &[u32; WORDS], log: &[u32; 6], added: u32) -> io::Result<()> {
    if added != 0 {
        let processor = u32::trailing_zeros(log[1]);
        print!(rt;
            "  chip {} hands it to processor {processor}       ",
            log[0]
        )?;
        mark(rt, mark_of(log[3]))?;
        light(rt, mesh)?;
    }
    sendings(rt, mesh)
}

// What was counted from one moment to another.
pub fn sums(rt: &HostRuntime, before: Totals, after: Totals) -> io::Result<()> {
    let sent = after.sent.wrapping_sub(before.sent);
    let delivered = after.delivered.wrapping_sub(before.delivered);
    let dropped = after.dropped.wrapping_sub(before.dropped);
    println!(rt; "  links crossed {sent}, delivered {delivered}, dropped {dropped}")
}

fn sendings(rt: &HostRuntime, mesh: &[u32; WORDS]) -> io::Result<()> {
    for chip in 0..CHIPS {
        for link in 0..6 {
            if look_link(mesh, chip, link).held != 0 {
                print!(rt;
                    "  chip {chip} sends it by link {link}, {:<10}",
                    direction(link)
                )?;
                mark(rt, mark_on(mesh, chip, link))?;
                light(rt, mesh)?;
            }
        }
    }
    Ok(())
}

// The two bits of a mark.
fn mark(rt: &HostRuntime, bits: u32) -> io::Result<()> {
    print!(rt; "   {bits:02b}")
}

fn direction(link: u32) -> &'static str {
    match link {
        0 => "east",
        1 => "north-east",
        2 => "north",
        3 => "west",
        4 => "south-west",
        _ => "south",
    }
}

fn light(rt: &HostRuntime, mesh: &[u32; WORDS]) -> io::Result<()> {
    let l = watched_link(mesh);
    let state = if l.up == 1 { "up" } else { "down" };
    let ready = if l.ready == 1 { "ready" } else { "not ready" };
    println!(rt; "    {state}, {ready}, holds {}", l.held)
}
