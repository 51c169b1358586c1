// Calls made on the mesh and tables of FILE: those of FILE, kept as a trace or not, or those of a kept trace.
use super::status::{Status, Stop, failed, readable, writable};
use acting::play::{Memory, Play};
use acting::running::Calls;
use buffer::opening::open;
use drawing::account::tell_account;
use drawing::picture::draw;
use packet::Packet;
use report::course::Course;
use script::board::Board;
use script::numbers::number;
use script::parts::Place;
use script::sendings::{fixed_of, spike_of};
use sheet::board::WORDS;
use sheet::checking;
use sheet::paths::Name;
use sheet::reading::{Past, read_file};
use sheet::storing::Sheet;
use std::io;

#[derive(Clone, Copy, Debug, PartialEq, Eq)]
pub enum Way {
    Run,
    Keep,
    Replay,
    Where,
    Map,
}

// What is odd in FILE's tables and, where it floods, in its links.
pub fn check(rt: &HostRuntime, sheet: &mut Sheet, m: &mut Memory) -> Result<Status, Stop> {
    let file = Name::argument(rt, 2);
    let Some(k) = checking::check(rt, file.bytes(), sheet)? else {
        return Ok(Status::Unread);
    };
    let unreached = if k.contents.flood {
        check_floods(rt, file.bytes(), k.contents.board, sheet, m)?
    } else {
        0
    };
    if k.refused {
        return Ok(Status::Refused);
    }
    if k.odd == 0 && unreached == 0 {
        println!(rt; "nothing odd")?;
    }
    Ok(Status::Accepted)
}

// How many pairs of chips a flood of FILE finds no way for.
fn check_floods<'a>(
    rt: &'a HostRuntime,
    file: &[u8],
    b: Board,
    sheet: &'a mut Sheet,
    m: &'a mut Memory,
) -> io::Result<u64> {
    let mut course = Course::on(rt, b);
    course.unreached = Some(0);
    let mut p = play_on(rt, course, sheet, m);
    unless_told(run_links(&mut p, file))?;
    Ok(p.course.unreached.unwrap_or_default())
}

// Reads FILE, and plays where nothing is wrong with it.
pub fn play(rt: &HostRuntime, way: Way, sheet: &mut Sheet, m: &mut Memory) -> Result<Status, Stop> {
    let name = Name::argument(rt, 2);
    let file = name.bytes();
    let Some(contents) = read_file(rt, file, Past::Wrong, sheet)? else {
        return Ok(Status::Unread);
    };
    let b = contents.board;
    sheet.move_together(b);
    let mut p = play_on(rt, Course::on(rt, b), sheet, m);
    match way {
        Way::Where => play_where(&mut p, file),
        Way::Replay => {
            if contents.flood {
                flood_before(&mut p, file)?;
            }
            play_calls(&mut p, way, file)
        }
        _ => play_calls(&mut p, way, file),
    }
}

// A mesh opened anew.
fn play_on<'a>(
    rt: &'a HostRuntime,
    course: Course,
    sheet: &'a mut Sheet,
    memory: &'a mut Memory,
) -> Play<'a> {
    open_anew(&mut memory.mesh, course.board);
    Play {
        rt,
        course,
        sheet,
        memory,
        trace: None,
        failure: None,
    }
}

fn open_anew(mesh: &mut [u32; WORDS], b: Board) {
    let _ = open(mesh, b.width, b.height, b.phase, b.monitor);
}

// Sets the links as FILE has them, and follows the packet that the arguments name.
fn play_where(p: &mut Play<'_>, file: &[u8]) -> Result<Status, Stop> {
    let rt = p.rt;
    let (Some(chip), Some(packet)) = (chip_asked(rt, p.course.board), packet_asked(rt)) else {
        eprint!(rt;
            "where FILE X Y KEY: X and Y are those of a chip, and KEY is a number up to 0xffffffff, "
        )?;
        eprintln!(rt; "or the word fixed for a fixed-route packet")?;
        return Ok(Status::Unread);
    };
    run_links(p, file)?;
    p.follow(chip, packet)?;
    Ok(Status::of(&p.course))
}

// FILE's link changes and floods alone.
fn run_links(p: &mut Play<'_>, file: &[u8]) -> Result<(), Stop> {
    let from = readable(p.rt, file)?;
    p.run(from, Calls::LinksAndFloods)?;
    Ok(())
}

// A trace keeps no flood: a replay has the codes as they stand at FILE's end, and a mesh opened anew.
fn flood_before(p: &mut Play<'_>, file: &[u8]) -> io::Result<()> {
    unless_told(run_links(p, file))?;
    let b = p.course.board;
    open_anew(&mut p.memory.mesh, b);
    p.course = Course::on(p.rt, b);
    Ok(())
}

// What goes on where FILE cannot be read again: that is told already.
fn unless_told(end: Result<(), Stop>) -> io::Result<()> {
    match end {
        Err(Stop::Io(e)) => Err(e),
        _ => Ok(()),
    }
}

fn chip_asked(rt: &HostRuntime, b: Board) -> Option<u32> {
    b.chip(Place::of_numbers(number_of_arg(rt, 3)?, number_of_arg(rt, 4)?))
}

// The packet that is asked for: a spike of a key, or the fixed-route packet of key 0.
fn packet_asked(rt: &HostRuntime) -> Option<Packet> {
    match Name::argument(rt, 5).bytes() {
        b"fixed" => Some(fixed_of(0)),
        _ => Some(spike_of(number_of_arg(rt, 5)?)),
    }
}

fn number_of_arg(rt: &HostRuntime, i: usize) -> Option<u32> {
    number(Name::argument(rt, i).bytes())
}

// Makes the calls. What is kept, replayed or drawn has its path behind FILE's.
fn play_calls(p: &mut Play<'_>, way: Way, file: &[u8]) -> Result<Status, Stop> {
    let rt = p.rt;
    let name = Name::argument(rt, 3);
    let other = name.bytes();
    let from = readable(rt, if way == Way::Replay { other } else { file })?;
    // Opening a pipe may wait: the run's first second begins here.
    p.course = Course::on(rt, p.course.board);
    match way {
        Way::Replay => p.replay(from)?,
        Way::Keep => {
            p.trace = Some(writable(rt, other)?);
            p.run(from, Calls::All)?;
        }
        Way::Map => {
            let mut to = writable(rt, other)?;
            p.run(from, Calls::All)?;
            draw(&mut to, &p.course, &p.memory.mesh)?;
            // The account is told before the picture is closed.
            return ended(p, other);
        }
        _ => p.run(from, Calls::All)?,
    }
    ended(p, other)
}

// Tells the account.
fn ended(p: &Play<'_>, trace: &[u8]) -> Result<Status, Stop> {
    tell_account(p.rt, &p.course, &p.memory.mesh)?;
    match &p.failure {
        Some(e) => Err(failed(p.rt, trace, e)),
        None => Ok(Status::of(&p.course)),
    }
}
