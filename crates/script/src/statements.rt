// What a line says: one statement, or what is wrong with it.
use super::board::Board;
use super::complaints::{Wanted, Wrong};
use super::parts::Place;
use super::sendings;
use super::words::Words;
use packet::Packet;

#[derive(Clone, Copy)]
pub enum Statement<'a> {
    Nothing,
    Mesh(Board),
    Row {
        place: Place,
        key: u32,
        mask: u32,
        route: u32,
    },
    // Rows in a file.
    Rows {
        place: Place,
        name: &'a [u8],
    },
    // The rows of a tree from a chip to the targets that the words name.
    Tree {
        place: Place,
        key: u32,
        mask: u32,
        targets: Words<'a>,
    },
    Code {
        place: Place,
        to: Place,
        code: u32,
    },
    // The route of the chip's fixed-route packets.
    Route {
        place: Place,
        route: u32,
    },
    Send {
        place: Place,
        packet: Packet,
    },
    Rounds(u32),
    UntilQuiet,
    Link {
        place: Place,
        link: u32,
        up: bool,
    },
    Registers {
        place: Place,
    },
    // All codes by flooding.
    Flood,
}

pub type Said<'a> = Result<Statement<'a>, Wrong<'a>>;

pub fn read_statement(line: &[u8]) -> Said<'_> {
    let mut words = Words::of(line);
    let name = words.word();
    match name {
        b"" => Ok(Statement::Nothing),
        b"row" => row(words),
        b"code" => code(words),
        b"rounds" => rounds(words),
        b"down" => link_change(words, false),
        b"up" => link_change(words, true),
        b"spike" => sendings::spike(words),
        b"p2p" => sendings::p2p(words),
        b"nn" => sendings::nn(words),
        b"fixed" => sendings::fixed(words),
        b"packet" => sendings::bytes(words),
        b"mesh" => mesh(words),
        b"rows" => rows(words),
        b"route" => fixed_route(words),
        b"until" => until(words),
        b"registers" => registers(words),
        b"flood" => flood(words),
        b"tree" => tree(words),
        _ => Err(Wanted::Statement.at(name)),
    }
}

fn mesh(mut words: Words<'_>) -> Said<'_> {
    let width = words.size()?;
    let height = words.size()?;
    let phase = words.option(b"phase", Wanted::Phase, 1, 65535)?;
    let monitor = words.option(b"monitor", Wanted::Monitor, 0, 19)?;
    words.end(Wanted::MeshMore)?;
    Ok(Statement::Mesh(Board {
        width,
        height,
        phase: phase.unwrap_or(16),
        monitor: monitor.unwrap_or(0),
    }))
}

fn row(mut words: Words<'_>) -> Said<'_> {
    Ok(Statement::Row {
        place: words.place()?,
        key: words.number()?,
        mask: words.number()?,
        route: words.route()?,
    })
}

fn rows(mut words: Words<'_>) -> Said<'_> {
    let place = words.place()?;
    let name = words.name()?;
    words.end(Wanted::End)?;
    Ok(Statement::Rows { place, name })
}

fn tree(mut words: Words<'_>) -> Said<'_> {
    let place = words.place()?;
    let key = words.number()?;
    let mask = words.number()?;
    words.exactly(b"to", Wanted::To)?;
    Ok(Statement::Tree {
        place,
        key,
        mask,
        targets: words,
    })
}

fn code(mut words: Words<'_>) -> Said<'_> {
    let place = words.place()?;
    let to = Place::At {
        x: words.coordinate()?,
        y: words.coordinate()?,
    };
    let code = words.code()?;
    words.end(Wanted::End)?;
    Ok(Statement::Code { place, to, code })
}

fn fixed_route(mut words: Words<'_>) -> Said<'_> {
    Ok(Statement::Route {
        place: words.place()?,
        route: words.route()?,
    })
}

fn rounds(mut words: Words<'_>) -> Said<'_> {
    let n = words.number()?;
    words.end(Wanted::End)?;
    Ok(Statement::Rounds(n))
}

fn until(mut words: Words<'_>) -> Said<'_> {
    words.exactly(b"quiet", Wanted::Quiet)?;
    words.end(Wanted::End)?;
    Ok(Statement::UntilQuiet)
}

fn link_change(mut words: Words<'_>, up: bool) -> Said<'_> {
    let place = words.place()?;
    let link = words.link()?;
    words.end(Wanted::End)?;
    Ok(Statement::Link { place, link, up })
}

fn registers(mut words: Words<'_>) -> Said<'_> {
    let place = words.place()?;
    words.end(Wanted::End)?;
    Ok(Statement::Registers { place })
}

fn flood(mut words: Words<'_>) -> Said<'_> {
    words.end(Wanted::End)?;
    Ok(Statement::Flood)
}
