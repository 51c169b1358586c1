// What the program is asked to do.
use super::playing::{Way, check, play};
use super::showing::show;
use super::status::{Status, Stop};
use acting::play::Memory;
use sheet::paths::Name;
use sheet::storing::Sheet;
use std::env::{Env, FillError};
use std::io;
use thinning::file::{Printed, print_fewer};

#[derive(Clone, Copy)]
enum Command {
    Play(Way),
    Show,
    Check,
    Fewer,
}

// What a command came to.
pub fn status_of(rt: &HostRuntime, sheet: &mut Sheet, memory: &mut Memory) -> io::Result<Status> {
    match done(rt, sheet, memory) {
        Ok(status) => Ok(status),
        Err(Stop::Told(status)) => Ok(status),
        Err(Stop::Io(e)) => Err(e),
    }
}

fn done(rt: &HostRuntime, sheet: &mut Sheet, memory: &mut Memory) -> Result<Status, Stop> {
    match asked(rt) {
        Some(Command::Play(way)) => play(rt, way, sheet, memory),
        Some(Command::Show) => show(rt),
        Some(Command::Check) => check(rt, sheet, memory),
        Some(Command::Fewer) => fewer(rt, sheet),
        None => {
            eprint!(rt;
                "what is wanted: lab run FILE, keep FILE TRACE, replay FILE TRACE, show TRACE, "
            )?;
            eprintln!(rt; "where FILE X Y KEY|fixed, check FILE, map FILE OUT.svg or fewer FILE")?;
            Ok(Status::Unread)
        }
    }
}

// The command that the arguments give.
fn asked(rt: &HostRuntime) -> Option<Command> {
    let word = Name::argument(rt, 1);
    let (command, arguments) = match word.bytes() {
        b"run" => (Command::Play(Way::Run), 1),
        b"keep" => (Command::Play(Way::Keep), 2),
        b"replay" => (Command::Play(Way::Replay), 2),
        b"show" => (Command::Show, 1),
        b"check" => (Command::Check, 1),
        b"where" => (Command::Play(Way::Where), 4),
        b"map" => (Command::Play(Way::Map), 2),
        b"fewer" => (Command::Fewer, 1),
        _ => return None,
    };
    // The program's name and the command's own stand before them.
    let past = 2 + arguments;
    if has_argument(rt, past - 1) && !has_argument(rt, past) {
        Some(command)
    } else {
        None
    }
}

fn has_argument(rt: &HostRuntime, n: usize) -> bool {
    !matches!(rt.arg(n, &mut []), Err(FillError::NotPresent))
}

fn fewer(rt: &HostRuntime, sheet: &mut Sheet) -> Result<Status, Stop> {
    let file = Name::argument(rt, 2);
    match print_fewer(rt, file.bytes(), sheet)? {
        Printed::Whole => Ok(Status::Accepted),
        Printed::TooMany => Ok(Status::Refused),
        Printed::Unread => Ok(Status::Unread),
    }
}
