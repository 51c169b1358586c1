// Rows as read back from a board: 16 bytes each, little-endian, two numbers of 16 bits, then route, key and mask.
use super::storing::Sheet;
use script::files::open_read;
use script::pieces::Bytes;
use std::fs::File;
use std::io;
use tables::Row;

// What is wrong with a file of rows.
#[derive(Drop)]
pub enum RowsFault {
    Unread(io::Error),
    Cut,
    TooMany,
    // A route bit that names nothing, and which row of the file has it.
    BadRoute { route: u32, row: u64 },
}

impl From<io::Error> for RowsFault {
    fn from(e: io::Error) -> RowsFault {
        RowsFault::Unread(e)
    }
}

// Reads the rows of a chip from a file. Rows past the chip's 1,024 are counted, and are told where nothing else is wrong.
pub fn read_rows(
    rt: &HostRuntime,
    path: &[u8],
    chip: u32,
    sheet: &mut Sheet,
) -> Result<(), RowsFault> {
    let from = open_read(rt, path)?;
    let mut bytes = Bytes::of(&from);
    let mut room = true;
    for before in 0..u64::MAX {
        let Some(row) = next_row(&mut bytes)? else {
            break;
        };
        // A route whose highest byte is all ones is that of a row not used, which is left out.
        if row.route >> 24 == 255 {
            continue;
        }
        if row.route >> 26 != 0 {
            return Err(RowsFault::BadRoute {
                route: row.route,
                row: before + 1,
            });
        }
        room &= sheet.keep_row(chip, row);
    }
    if room {
        Ok(())
    } else {
        Err(RowsFault::TooMany)
    }
}

// The next row: none at the file's end.
fn next_row(bytes: &mut Bytes<&File>) -> Result<Option<Row>, RowsFault> {
    let mut words = [0u32; 4];
    for n in 0..16 {
        match bytes.next_byte()? {
            // Four bytes shifted in from above are a little-endian word.
            Some(b) => words[n / 4] = (words[n / 4] >> 8) | (u32::from(b) << 24),
            None if n == 0 => return Ok(None),
            None => return Err(RowsFault::Cut),
        }
    }
    let [_, route, key, mask] = words;
    Ok(Some(Row { key, mask, route }))
}
