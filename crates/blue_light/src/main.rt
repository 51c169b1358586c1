// The story of one link's light. A packet goes straight; the link is taken down, and the next packet goes round it and
// arrives all the same; the link comes up, and the one after goes straight again. Every number comes from the mesh's calls.
#![tactic(auto)]

mod board;
mod telling;

use board::WORDS;
use std::io;

fn main(rt: HostRuntime) -> io::Result<()> {
    let mut mesh = board::opened();
    telling::title(&rt, &mesh)?;
    telling::heading(&rt, "First packet")?;
    journey(&rt, &mut mesh)?;
    board::watched_link_is_up(&mut mesh, false);
    telling::heading(&rt, "Second packet, the link taken down")?;
    journey(&rt, &mut mesh)?;
    board::watched_link_is_up(&mut mesh, true);
    telling::heading(&rt, "Third packet, the link up again")?;
    journey(&rt, &mut mesh)
}

// One packet's way, step by step, until nothing is in flight: nine rounds at most.
fn journey(rt: &HostRuntime, mesh: &mut [u32; WORDS]) -> io::Result<()> {
    let mut log = [0u32; 6];
    let before = board::sums(mesh);
    let added = board::send(mesh, &mut log);
    telling::step(rt, mesh, &log, added)?;
    for _ in 0..9 {
        if board::in_flight(mesh) == 0 {
            break;
        }
        let added = board::turn(mesh, &mut log);
        telling::step(rt, mesh, &log, added)?;
    }
    telling::sums(rt, before, board::sums(mesh))
}
