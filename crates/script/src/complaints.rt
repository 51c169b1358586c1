// What is wrong with a line, and what would be right, in words.
use super::words::Words;
use std::io::Write;
use std::{fmt, io};

// What may be wanted at a word.
#[derive(Clone, Copy, Debug, PartialEq, Eq)]
pub enum Wanted {
    Statement,
    Coordinate,
    Number,
    Link,
    Route,
    Code,
    Neighbour,
    Byte,
    Quiet,
    Size,
    Phase,
    Monitor,
    Payload,
    NnMore,
    MeshMore,
    Name,
    End,
    Chip,
    To,
    Processor,
    BeforeComma,
}

// What was wanted where another word stands, which is empty at the line's end.
#[derive(Clone, Copy, Debug)]
pub struct Wrong<'a> {
    pub wanted: Wanted,
    pub found: &'a [u8],
}

impl Wanted {
    pub fn at(self, found: &[u8]) -> Wrong<'_> {
        Wrong {
            wanted: self,
            found,
        }
    }

    fn words(self) -> &'static str {
        match self {
            Wanted::Statement =>
                "a statement is wanted: mesh, row, rows, tree, code, route, spike, fixed, p2p, nn, packet, rounds, until quiet, down, up, registers or flood",
            Wanted::Coordinate => "a chip's x or y is wanted, a number from 0 to 255",
            Wanted::Number =>
                "a number up to 0xffffffff is wanted, decimal or 0x and hexadecimal digits",
            Wanted::Link => "a link is wanted, E, NE, N, W, SW, S or 0 to 5",
            Wanted::Route =>
                "a link or a processor is wanted, E, NE, N, W, SW, S or 0 to 5, p0 to p19 or a run as p3-7",
            Wanted::Code =>
                "a code is wanted, a link (E, NE, N, W, SW, S or 0 to 5), nowhere or monitor",
            Wanted::Neighbour =>
                "a route is wanted, a link (E, NE, N, W, SW, S or 0 to 5), all or monitor",
            Wanted::Byte => "a byte is wanted, as two hexadecimal digits",
            Wanted::Quiet => "quiet is wanted",
            Wanted::Size => "a width or a height is wanted, a number from 1 to 12",
            Wanted::Phase => "the rounds in a phase are wanted, a number from 1 to 65535",
            Wanted::Monitor => "the monitor is wanted, a processor from 0 to 19",
            Wanted::Payload => "payload or the line's end is wanted",
            Wanted::NnMore => "word, payload or the line's end is wanted",
            Wanted::MeshMore => "phase, monitor or the line's end is wanted",
            Wanted::Name => "the name of a file is wanted",
            Wanted::End => "the line's end is wanted",
            Wanted::Chip => "a chip's number is wanted, from 0 to 65535",
            Wanted::To => "to is wanted",
            Wanted::Processor =>
                "a processor is wanted, p0 to p19 or a run as p3-7, and a comma before the next chip",
            Wanted::BeforeComma =>
                "a chip's y or number is wanted, and before the comma its processors",
        }
    }
}

impl fmt::Display for Wanted {
    fn fmt<W: fmt::Write>(&self, f: &mut fmt::Formatter<W>) -> fmt::Result {
        f.write_str(self.words())
    }
}

// Tells what stands at a word, what was wanted there, and the statement's form. A word may be any bytes.
pub fn complain(rt: &HostRuntime, line: &[u8], wrong: Wrong<'_>) -> io::Result<()> {
    let mut to = rt.stderr();
    if wrong.found.is_empty() {
        to.write_all(b"the line ends where ")?;
    } else {
        to.write_all(b"\"")?;
        to.write_all(wrong.found)?;
        to.write_all(b"\" stands where ")?;
    }
    writeln!(to, "{}{}", wrong.wanted, form_of(Words::of(line).ahead()))
}

// The form of a statement, where the word begins one.
fn form_of(name: &[u8]) -> &'static str {
    match name {
        b"mesh" => ": mesh W H [phase F] [monitor M]",
        b"row" => ": row X Y KEY MASK [links and processors]",
        b"rows" => ": rows X Y NAME",
        b"tree" => ": tree X Y KEY MASK to X Y p1 p2, X Y p3",
        b"code" => ": code X Y DX DY LINK|nowhere|monitor",
        b"route" => ": route X Y [links and processors]",
        b"rounds" => ": rounds N",
        b"until" => ": until quiet",
        b"spike" => ": spike X Y KEY [payload N]",
        b"fixed" => ": fixed X Y KEY [payload N]",
        b"p2p" => ": p2p X Y DX DY [payload N]",
        b"nn" => ": nn X Y LINK|all|monitor [word N] [payload N]",
        b"packet" => ": packet X Y and five or nine bytes",
        b"down" => ": down X Y LINK",
        b"up" => ": up X Y LINK",
        b"registers" => ": registers X Y",
        b"flood" => ": flood",
        _ => "",
    }
}
