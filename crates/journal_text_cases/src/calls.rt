// Reading the text into the numbers, writing the numbers as text, and the pass over the numbers.
use crate::{input, show};
use std::io;
use std::io::Read;

// Writes the first so many numbers over so many bytes of the text.
pub(crate) fn write(
    rt: &impl Print,
    input: &mut impl Read,
    text: &mut [u8],
    journal: &[u32],
) -> io::Result<()> {
    let count = input::number(input)?;
    let room = input::number(input)?;
    if let (Some(numbers), Some(out)) = (journal.get(..count), text.get_mut(..room)) {
        show::wrote(rt, journal_text::write(numbers, out))?;
    }
    Ok(())
}

// Whether writing a journal elsewhere gives the text, and leaves 0 after it.
fn gives(journal: &[u32], text: &[u8]) -> bool {
    let mut out = crate::text_room();
    let _ = journal_text::write(journal, &mut out);
    out.starts_with(text) && out.get(text.len()) == Some(&0)
}

// Passes over the first so many numbers.
pub(crate) fn clean(rt: &impl Print, input: &mut impl Read, journal: &mut [u32]) -> io::Result<()> {
    let count = input::number(input)?;
    if let Some(numbers) = journal.get_mut(..count) {
        show::cleaned(rt, journal_text::clean(numbers))?;
    }
    Ok(())
}

// Reads the text into the first so many numbers, as a text or as an old file, or shows whether writing these gives it.
pub(crate) fn with_text(
    rt: &impl Print,
    input: &mut impl Read,
    letter: u8,
    text: &[u8],
    journal: &mut [u32],
) -> io::Result<()> {
    let count = input::number(input)?;
    let Some(numbers) = journal.get_mut(..count) else {
        return Ok(());
    };
    match letter {
        b'r' => show::read(rt, journal_text::read(text, numbers)),
        b'o' => show::read(rt, journal_text::read_old(text, numbers)),
        _ => println!(rt; "{}", if gives(numbers, text) { "yes" } else { "no" }),
    }
}
