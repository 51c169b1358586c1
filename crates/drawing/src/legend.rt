// What stands below the picture of a mesh: what its parts mean, and the account.
use super::account::Account;
use super::svg;
use super::svg::Point;
use report::course::Course;
use sheet::board::WORDS;
use std::fs::File;
use std::io;

// Where lines start.
const LEFT: u32 = 20;

// Where what they explain starts.
const FIRST: u32 = 140;

pub fn draw_legend(to: &mut File, c: &Course, mesh: &[u32; WORDS], top: u32) -> io::Result<()> {
    let start = Point { x: LEFT, y: top };
    draw_size(to, c, start.down(20))?;
    draw_shades(to, start.down(36))?;
    draw_losses(to, start.down(66))?;
    draw_links(to, start.down(100))?;
    svg::words(
        to,
        "key",
        Point {
            x: FIRST,
            ..start.down(128)
        },
        "The half-line at a chip is the link that leads away from it. A short one leads round the edge, to the chip named.",
    )?;
    svg::words(to, "key", start.down(156), Account::of(c, mesh))
}

fn draw_size(to: &mut File, c: &Course, at: Point) -> io::Result<()> {
    svg::words(
        to,
        "key",
        at,
        format_args!(
            "a mesh of {} by {} chips as it stands in round {}",
            c.board.width, c.board.height, c.rounds
        ),
    )
}

// Chips by units delivered there.
fn draw_shades(to: &mut File, at: Point) -> io::Result<()> {
    svg::words(to, "key", at.down(13), "units delivered:")?;
    draw_shade(to, "s0", Point { x: FIRST, ..at }, "none")?;
    draw_shade(to, "s1", Point { x: 230, ..at }, "1")?;
    draw_shade(to, "s2", Point { x: 300, ..at }, "2 to 9")?;
    draw_shade(to, "s3", Point { x: 400, ..at }, "10 to 99")?;
    draw_shade(to, "s4", Point { x: 510, ..at }, "100 and more")
}

fn draw_shade(to: &mut File, class: &str, at: Point, meaning: &str) -> io::Result<()> {
    svg::rect(to, class, at, 26, 16)?;
    svg::words(to, "key", at.right(34).down(13), meaning)
}

fn draw_links(to: &mut File, at: Point) -> io::Result<()> {
    svg::words(to, "key", at.down(5), "links:")?;
    draw_link(to, "up", Point { x: FIRST, ..at }, "up")?;
    draw_link(
        to,
        "holds",
        Point { x: 230, ..at },
        "holding so many packets",
    )?;
    svg::held(to, "holds dot", Point { x: 247, ..at }, 3)?;
    draw_link(
        to,
        "full",
        Point { x: 460, ..at },
        "full: 7 or 8, not ready",
    )?;
    svg::held(to, "full dot", Point { x: 477, ..at }, 7)?;
    draw_link(to, "down", Point { x: 680, ..at }, "down")
}

fn draw_link(to: &mut File, class: &str, at: Point, meaning: &str) -> io::Result<()> {
    svg::line(to, class, at, at.right(34))?;
    svg::words(to, "key", at.right(42).down(5), meaning)
}

fn draw_losses(to: &mut File, at: Point) -> io::Result<()> {
    svg::words(to, "key", at.down(10), "lost at a chip:")?;
    draw_loss(to, "drop", Point { x: FIRST, ..at }, "units dropped")?;
    draw_loss(to, "swallow", Point { x: 350, ..at }, "units swallowed")?;
    draw_loss(to, "error", Point { x: 570, ..at }, "errors found")
}

fn draw_loss(to: &mut File, class: &str, at: Point, meaning: &str) -> io::Result<()> {
    svg::badge(to, class, at, 76, 1)?;
    svg::words(to, "key", at.right(84).down(10), meaning)
}
