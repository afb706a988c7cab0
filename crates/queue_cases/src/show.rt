// What a letter shows, each with a blank before it.
use queue::{Cell, Row};
use std::io;

pub(crate) fn answer(rt: &impl Print, yes: bool) -> io::Result<()> {
    print!(rt; " {}", if yes { "yes" } else { "no" })
}

// What a letter shows of a row: up to so many of its numbers, the size, or the number at a place; nothing where it is none of these.
// A `match`: each letter reads other parameters.
pub(crate) fn letter<C: Cell, const N: usize>(
    rt: &impl Print,
    row: Row<C, N>,
    most: usize,
    at: usize,
    letter: u8,
) -> io::Result<()> {
    match letter {
        b'i' => {
            // By `item`, the call that the case shows.
            for k in 0..row.size().min(most) {
                print!(rt; " {}", row.item(k))?;
            }
        }
        b'z' => print!(rt; " {}", row.size())?,
        b'a' => print!(rt; " {}", row.item(at))?,
        _ => {}
    }
    Ok(())
}
