// What makes a reader or an empty sheet is called as anyone may call it: a reader that owns its file outlives the call that opened the file,
// one of a borrowed file can be copied, and bytes in memory are read as a file's are.
use super::records::Records;
use script::files::open_read;
use script::lines::Lines;
use script::pieces::Bytes;
use sheet::storing::{Sheet, row_at};
use std::io;
use std::test::Fail;

// Two records, the second of no bytes; and two lines, the second without its LF.
const BYTES: [u8; 6] = [0, 2, b'\n', b'b', 0, 0];

// A key, a mask and a route.
const ROW: [u32; 3] = [1, 3, 5];

fn bytes_from(rt: &HostRuntime, path: &[u8]) -> io::Result<Bytes> {
    Ok(Bytes::of(open_read(rt, path)?))
}

fn lines_from(rt: &HostRuntime, path: &[u8]) -> io::Result<Lines> {
    Ok(Lines::of(open_read(rt, path)?))
}

fn records_from(rt: &HostRuntime, path: &[u8]) -> io::Result<Records> {
    Ok(Records::of(open_read(rt, path)?))
}

#[test]
fn a_reader_owns_its_file(rt: HostRuntime) -> Result<(), Fail> {
    assert_eq!(rt; bytes_from(&rt, b"/dev/zero")?.next_byte()?, Some(0));
    assert_eq!(rt; bytes_from(&rt, b"/dev/null")?.next_byte()?, None);
    assert!(rt; lines_from(&rt, b"/dev/null")?.next_line()?.is_none());
    let mut records = records_from(&rt, b"/dev/zero")?;
    for at in [0, 2] {
        let record = records.next_record()?.ok_or("no record")?;
        assert_eq!(rt; record.at, at);
        assert!(rt; record.bytes == [0, 0].as_slice());
    }
    Ok(())
}

#[test]
fn a_reader_of_a_borrowed_file_is_copied(rt: HostRuntime) -> Result<(), Fail> {
    let zeros = open_read(&rt, b"/dev/zero")?;
    let mut records = Records::of(&zeros);
    assert!(rt; records.next_record()?.is_some());
    for mut again in [records, records] {
        assert_eq!(rt; again.next_record()?.ok_or("no record")?.at, 2);
    }
    let bytes = Bytes::of(&zeros);
    for mut again in [bytes, bytes] {
        assert_eq!(rt; again.next_byte()?, Some(0));
    }
    let nothing = open_read(&rt, b"/dev/null")?;
    let lines = Lines::of(&nothing);
    for mut again in [lines, lines] {
        assert!(rt; again.next_line()?.is_none());
    }
    Ok(())
}

#[test]
fn bytes_in_memory_are_read(rt: HostRuntime) -> Result<(), Fail> {
    let mut bytes = Bytes::of(BYTES.as_slice());
    for byte in BYTES {
        assert_eq!(rt; bytes.next_byte()?, Some(byte));
    }
    assert_eq!(rt; bytes.next_byte()?, None);
    let mut lines = Lines::of(BYTES.as_slice());
    for (number, from, to) in [(1, 0, 2), (2, 3, 6)] {
        let line = lines.next_line()?.ok_or("no line")?;
        assert_eq!(rt; line.number, number);
        assert!(rt; BYTES.get(from..to) == Some(line.bytes));
    }
    assert!(rt; lines.next_line()?.is_none());
    let mut records = Records::of(BYTES.as_slice());
    for (at, from, to) in [(0, 0, 4), (4, 4, 6)] {
        let record = records.next_record()?.ok_or("no record")?;
        assert_eq!(rt; record.at, at);
        assert!(rt; BYTES.get(from..to) == Some(record.bytes));
    }
    assert!(rt; records.next_record()?.is_none());
    Ok(())
}

#[test]
fn an_empty_sheet_takes_rows(rt: HostRuntime) {
    let mut sheet = Sheet::empty();
    assert!(rt; sheet.rows().is_empty());
    assert!(rt; sheet.codes().is_empty());
    assert!(rt; sheet.fixed().is_empty());
    assert_eq!(rt; sheet.count(143), 0);
    sheet.begin_alone(143);
    assert!(rt; sheet.keep_row(143, row_at(&ROW, 0)));
    assert_eq!(rt; sheet.count(143), 1);
    assert!(rt; sheet.rows_alone(143) == ROW.as_slice());
}
