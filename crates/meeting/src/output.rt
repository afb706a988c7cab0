// What the program prints.
use record::Record;
use std::io;

// Prints each window's number, its last index and its count, a line.
// Alike in runner and meeting: reading and printing stand in no library (docs/DECISIONS.md).
pub(crate) fn windows(rt: &impl Print, records: &[Record]) -> io::Result<()> {
    for (w, record) in records.iter().enumerate() {
        println!(rt; "window {w} {} {}", record.last.0, record.count)?;
    }
    Ok(())
}

// Says on standard error how the program is called.
pub(crate) fn usage(rt: &impl Eprint) -> io::Result<()> {
    eprintln!(rt;
        "usage: meeting W ENTRIES LIMIT, with W 1 to 16, ENTRIES 0 to 65535, LIMIT 1 to 32"
    )
}
