// The numbers of the journal, shown and stored.
use crate::input;
use std::io;
use std::io::Read;

// Shows the first so many numbers, four to a line.
pub(crate) fn entries(rt: &impl Print, input: &mut impl Read, journal: &[u32]) -> io::Result<()> {
    let count = input::number(input)?;
    for (i, n) in journal.iter().take(count).enumerate() {
        if i % 4 == 3 {
            println!(rt; "{n}")?;
        } else {
            print!(rt; "{n} ")?;
        }
    }
    Ok(())
}

// Fills the journal with notes to window 0.
pub(crate) fn fill(journal: &mut [u32]) {
    for entry in journal.chunks_exact_mut(4) {
        entry[0] = 1;
        entry[1] = 4;
        entry[2] = 0;
        entry[3] = 0;
    }
}

// Stores at a place a number.
pub(crate) fn store(input: &mut impl Read, journal: &mut [u32]) -> io::Result<()> {
    let at = input::number(input)?;
    let n = (input::number(input)? % 65536) as u32;
    if let Some(number) = journal.get_mut(at) {
        *number = n;
    }
    Ok(())
}

// Stores the numbers that a text shows, with a byte after each, from the journal's start on.
pub(crate) fn shown(text: &[u8], journal: &mut [u32]) {
    let mut at = 0;
    for number in journal.iter_mut() {
        let Some((n, next)) = decimal::read(text, at, u32::MAX) else {
            return;
        };
        *number = n;
        at = next;
        if at < text.len() {
            at += 1;
        }
    }
}
