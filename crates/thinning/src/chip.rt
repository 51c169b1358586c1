// One chip's rows, read from FILE by themselves and printed fewer.
use super::row::print_row;
use fewer::call::fewer;
use script::parts::Place;
use sheet::reading::{Past, read_file};
use sheet::storing::{Sheet, row_at};
use std::io;

// As many rows as are made fewer, and their words.
pub const MOST: usize = 16384;

const WORDS: usize = 49152;

pub fn print_chip(
    rt: &HostRuntime,
    chip: u32,
    name: Place,
    file: &[u8],
    sheet: &mut Sheet,
) -> io::Result<()> {
    sheet.begin_alone(chip);
    match read_file(rt, file, Past::Counted, sheet)? {
        Some(_) => print_made_fewer(rt, name, sheet.rows_alone(chip)),
        None => Ok(()),
    }
}

// What went is told in a comment before the rows that are left.
fn print_made_fewer(rt: &HostRuntime, name: Place, rows: &[u32]) -> io::Result<()> {
    let mut left = [0u32; WORDS];
    let mut gone = [0u32; MOST];
    let f = fewer(rows, &mut left, &mut gone);
    if f.gone != 0 {
        println!(rt; "# chip {name}: {} of {} rows went", f.gone, rows.len() / 3)?;
    }
    for n in 0..f.rows as usize {
        print_row(rt, name, row_at(&left, n))?;
    }
    Ok(())
}
