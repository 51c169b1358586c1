// A row as a line that FILE could hold.
use script::names::link_name;
use script::parts::Place;
use script::routes::has;
use std::io;
use tables::Row;

pub fn print_row(rt: &HostRuntime, chip: Place, row: Row) -> io::Result<()> {
    print!(rt; "row {chip} 0x{:08x} 0x{:08x}", row.key, row.mask)?;
    for link in 0..6 {
        if has(row.route, link) {
            print!(rt; " {}", link_name(link))?;
        }
    }
    for processor in 0..20 {
        if has(row.route, processor + 6) {
            print!(rt; " p{processor}")?;
        }
    }
    println!(rt)
}
