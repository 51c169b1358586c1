// Parts of a picture in SVG 1.1. Places are whole numbers, counted from the upper left corner.
use std::fmt::Display;
use std::fs::File;
use std::io;
use std::io::Write;

#[derive(Clone, Copy)]
pub struct Point {
    pub x: u32,
    pub y: u32,
}

impl Point {
    pub fn right(self, by: u32) -> Point {
        Point {
            x: self.x.wrapping_add(by),
            ..self
        }
    }

    pub fn left(self, by: u32) -> Point {
        Point {
            x: self.x.wrapping_sub(by),
            ..self
        }
    }

    pub fn down(self, by: u32) -> Point {
        Point {
            y: self.y.wrapping_add(by),
            ..self
        }
    }

    pub fn up(self, by: u32) -> Point {
        Point {
            y: self.y.wrapping_sub(by),
            ..self
        }
    }
}

pub fn rect(to: &mut File, class: &str, at: Point, width: u32, height: u32) -> io::Result<()> {
    let Point { x, y } = at;
    writeln!(
        to,
        "<rect class=\"{class}\" x=\"{x}\" y=\"{y}\" width=\"{width}\" height=\"{height}\"/>"
    )
}

pub fn line(to: &mut File, class: &str, from: Point, end: Point) -> io::Result<()> {
    let Point { x, y } = from;
    writeln!(
        to,
        "<line class=\"{class}\" x1=\"{x}\" y1=\"{y}\" x2=\"{}\" y2=\"{}\"/>",
        end.x, end.y
    )
}

pub fn circle(to: &mut File, class: &str, middle: Point, radius: u32) -> io::Result<()> {
    let Point { x, y } = middle;
    writeln!(
        to,
        "<circle class=\"{class}\" cx=\"{x}\" cy=\"{y}\" r=\"{radius}\"/>"
    )
}

pub fn words<D: Display + Drop>(to: &mut File, class: &str, at: Point, what: D) -> io::Result<()> {
    let Point { x, y } = at;
    writeln!(
        to,
        "<text class=\"{class}\" x=\"{x}\" y=\"{y}\">{what}</text>"
    )
}

// How many packets a link holds.
pub fn held(to: &mut File, class: &str, middle: Point, count: u32) -> io::Result<()> {
    circle(to, class, middle, 9)?;
    words(to, "held", middle.down(5), count)
}

// What was lost at a chip, in a box of its class, and how many.
pub fn badge<D: Display + Drop>(
    to: &mut File,
    class: &str,
    at: Point,
    width: u32,
    count: D,
) -> io::Result<()> {
    rect(to, class, at, width, 12)?;
    words(
        to,
        "badge",
        at.right(width / 2).down(10),
        format_args!("{class} {count}"),
    )
}

// A picture of a size, with the look of each class.
pub fn begin_picture(to: &mut File, width: u32, height: u32) -> io::Result<()> {
    to.write_all(b"<?xml version=\"1.0\" encoding=\"UTF-8\"?>\n")?;
    writeln!(
        to,
        "<svg xmlns=\"http://www.w3.org/2000/svg\" version=\"1.1\" width=\"{width}\" height=\"{height}\" viewBox=\"0 0 {width} {height}\">"
    )?;
    to.write_all(LOOK)?;
    rect(to, "page", Point { x: 0, y: 0 }, width, height)
}

pub fn end_picture(to: &mut File) -> io::Result<()> {
    to.write_all(b"</svg>\n")
}

const LOOK: &[u8] = b"<style type=\"text/css\">
.page { fill: #ffffff }
text { font-family: sans-serif; fill: #1b2430 }
.s0 { fill: #ffffff; stroke: #1b2430; stroke-width: 1.5 }
.s1 { fill: #e0f2e7; stroke: #1b2430; stroke-width: 1.5 }
.s2 { fill: #b3dec5; stroke: #1b2430; stroke-width: 1.5 }
.s3 { fill: #7cc69e; stroke: #1b2430; stroke-width: 1.5 }
.s4 { fill: #45a877; stroke: #1b2430; stroke-width: 1.5 }
.drop { fill: #c62828 }
.swallow { fill: #6a3fa0 }
.error { fill: #9a5b00 }
.name { font-size: 18px; font-weight: bold; text-anchor: middle }
.count { font-size: 15px; text-anchor: middle }
.badge { font-size: 11px; fill: #ffffff; text-anchor: middle }
.up { stroke: #9aa5b1; stroke-width: 4 }
.holds { stroke: #1f6fd0; stroke-width: 6 }
.full { stroke: #e07b00; stroke-width: 8 }
.down { stroke: #c62828; stroke-width: 4; stroke-dasharray: 5 4 }
.dot { fill: #ffffff; stroke-width: 2.5 }
.held { font-size: 13px; text-anchor: middle }
.from { font-size: 12px; fill: #55606e }
.over { font-size: 12px; fill: #55606e; text-anchor: middle }
.to { font-size: 12px; fill: #55606e; text-anchor: end }
.key { font-size: 13px }
</style>
";
