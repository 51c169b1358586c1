// A picture of the mesh as it stands: chips with what they counted, each directed link as a half-line at its chip.
ghost use Rattle.std.specs.Prelude.{◌≤◌};

use super::account::{Counter, counted};
use super::legend::draw_legend;
use super::svg;
use super::svg::Point;
use buffer::looking::look_link;
use report::course::Course;
use script::board::Board;
use script::parts::Place;
use sheet::board::WORDS;
use std::fs::File;
use std::{fmt, io};

// From chip to chip, around all chips, and the least width of the legend.
const PITCH: u32 = 150;

const EDGE: u32 = 30;

const LEAST: u32 = 900;

// From a chip's middle: to its side, to where its half-lines start and end, to the end of one that leads round the edge, and to
// what says how many packets a link holds.
const SIDE: u32 = 38;

const NEAR: u32 = 40;

const FAR: u32 = 73;

const STUB: u32 = 60;

const MIDST: u32 = 52;

// A number, or the most that is written and a plus.
#[derive(Clone, Copy)]
struct UpTo {
    most: u32,
    n: u32,
}

impl fmt::Display for UpTo {
    fn fmt<W: fmt::Write>(&self, f: &mut fmt::Formatter<W>) -> fmt::Result {
        if self.n <= self.most {
            write!(f, "{}", self.n)
        } else {
            write!(f, "{}+", self.most)
        }
    }
}

pub fn draw(to: &mut File, c: &Course, mesh: &[u32; WORDS]) -> io::Result<()> {
    let b = c.board;
    let below = pitches(b.height);
    svg::begin_picture(
        to,
        pitches(b.width).wrapping_add(left_of(b) * 2),
        below.wrapping_add(176),
    )?;
    for chip in 0..b.chips() {
        draw_chip(to, b, mesh, chip)?;
    }
    draw_legend(to, c, mesh, below)?;
    svg::end_picture(to)
}

// What a narrow mesh leaves free on its left: the legend is wider.
fn left_of(b: Board) -> u32
    ensures { result ≤ 450 }
{
    LEAST.saturating_sub(pitches(b.width)) / 2
}

fn pitches(n: u32) -> u32 {
    n.wrapping_mul(PITCH).wrapping_add(EDGE * 2)
}

fn draw_chip(to: &mut File, b: Board, mesh: &[u32; WORDS], chip: u32) -> io::Result<()> {
    // North is up.
    let middle = Point {
        x: middle(b.x_of(chip)).wrapping_add(left_of(b)),
        y: middle(b.height.wrapping_sub(1).wrapping_sub(b.y_of(chip))),
    };
    for link in 0..6 {
        draw_link(to, b, mesh, chip, link, middle)?;
    }
    draw_box(to, b, mesh, chip, middle)?;
    draw_badges(to, mesh, chip, middle.left(SIDE))
}

fn middle(n: u32) -> u32 {
    pitches(n).wrapping_add(PITCH / 2 - EDGE)
}

fn draw_box(
    to: &mut File,
    b: Board,
    mesh: &[u32; WORDS],
    chip: u32,
    middle: Point,
) -> io::Result<()> {
    let delivered = counted(mesh, chip, Counter::Delivered);
    let shade = match delivered {
        0 => "s0",
        1 => "s1",
        2..=9 => "s2",
        10..=99 => "s3",
        _ => "s4",
    };
    svg::rect(to, shade, middle.left(SIDE).up(SIDE), SIDE * 2, SIDE * 2)?;
    svg::words(to, "name", middle.up(20), b.place(chip))?;
    if delivered != 0 {
        let count = UpTo {
            most: 9999999,
            n: delivered,
        };
        svg::words(to, "count", middle.up(3), count)?;
    }
    Ok(())
}

// What was lost at the chip whose left side is given, at its middle's height.
fn draw_badges(to: &mut File, mesh: &[u32; WORDS], chip: u32, side: Point) -> io::Result<()> {
    let dropped = counted(mesh, chip, Counter::Dropped);
    let swallowed = counted(mesh, chip, Counter::Swallowed);
    draw_badge(to, "drop", dropped, side.down(1))?;
    draw_badge(to, "swallow", swallowed, side.down(13))?;
    draw_badge(to, "error", errors(mesh, chip), side.down(25))
}

fn draw_badge(to: &mut File, class: &str, n: u32, at: Point) -> io::Result<()> {
    if n == 0 {
        return Ok(());
    }
    svg::badge(to, class, at.right(3), SIDE * 2 - 6, UpTo { most: 999, n })
}

// How often the four errors were found.
fn errors(mesh: &[u32; WORDS], chip: u32) -> u32 {
    [
        Counter::Parity,
        Counter::Age,
        Counter::Length,
        Counter::BadLocal,
    ]
    .iter()
    .map(|counter| counted(mesh, chip, *counter))
    .fold(0u32, |all, found| all.wrapping_add(found))
}

fn draw_link(
    to: &mut File,
    b: Board,
    mesh: &[u32; WORDS],
    chip: u32,
    link: u32,
    middle: Point,
) -> io::Result<()> {
    let round = leads_round(b, chip, link);
    let end = if round { STUB } else { FAR };
    let l = look_link(mesh, chip, link);
    let (class, dot) = look_of(l.up != 0, l.held);
    svg::line(
        to,
        class,
        along(middle, link, NEAR),
        along(middle, link, end),
    )?;
    if l.held != 0 {
        svg::held(to, dot, along(middle, link, MIDST), l.held)?;
    }
    if round {
        draw_name(to, link, middle, b.place(b.beyond(chip, link)))?;
    }
    Ok(())
}

// The classes of a link and of what says how many packets it holds: one that holds more than six is not ready.
fn look_of(up: bool, held: u32) -> (&'static str, &'static str) {
    match (up, held) {
        (false, _) => ("down", "down dot"),
        (true, 0) => ("up", "up dot"),
        (true, 1..=6) => ("holds", "holds dot"),
        (true, _) => ("full", "full dot"),
    }
}

// The chip that a link leads to round the edge, behind the end of its half-line.
fn draw_name(to: &mut File, link: u32, middle: Point, far: Place) -> io::Result<()> {
    let end = along(middle, link, STUB + 6);
    let (class, at) = match link {
        0 => ("from", end.down(4)),
        1 => ("from", end),
        2 => ("over", end),
        3 => ("to", end.down(4)),
        4 => ("to", end.down(9)),
        _ => ("over", end.down(9)),
    };
    svg::words(to, class, at, far)
}

fn leads_round(b: Board, chip: u32, link: u32) -> bool {
    let east = b.x_of(chip).wrapping_add(1) == b.width;
    let north = b.y_of(chip).wrapping_add(1) == b.height;
    let west = b.x_of(chip) == 0;
    let south = b.y_of(chip) == 0;
    match link {
        0 => east,
        1 => east | north,
        2 => north,
        3 => west,
        4 => west | south,
        _ => south,
    }
}

// A place so far along a link from a chip's middle: in both directions, where the link leads aslant.
fn along(middle: Point, link: u32, by: u32) -> Point {
    match link {
        0 => middle.right(by),
        1 => middle.right(by).up(by),
        2 => middle.up(by),
        3 => middle.left(by),
        4 => middle.left(by).down(by),
        _ => middle.down(by),
    }
}
