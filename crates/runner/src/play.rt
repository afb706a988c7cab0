// One input, from its first line to its last: the head is read whole, then one step after another is played.
use crate::input::{Lines, find_lf};
use crate::output::Output;
use script::Stage;
use std::io::Read;

// What the head of an input says: the number of windows, and the journal.
#[derive(Clone, Copy)]
struct Head<'a> {
    count: u32,
    journal: &'a [u32],
}

// Plays an input and writes the answers to standard output, and then `bad` where a line is malformed.
pub(crate) fn play(rt: &impl Print, reader: impl Read + Drop) {
    let mut lines = Lines::new(reader);
    let mut out = Output::new(rt);
    if play_lines(&mut lines, &mut out).is_none() {
        out.refuse();
    }
    out.flush();
}

// Plays the head and the steps. None where a line is malformed, or the journal has too many entries.
fn play_lines(lines: &mut Lines<impl Read>, out: &mut Output<'_, impl Print>) -> Option<()> {
    let mut numbers = [0; 8000];
    let head = read_head(lines, &mut numbers)?;
    let opened = Stage::open(head.journal, head.count);
    if !opened.ok {
        return None;
    }
    play_steps(lines, out, head, opened.stage)
}

// Reads the head. One with 2,000 entries has at most 58,918 bytes, so where no line of the first 65,536 bytes is `run`
// the input is malformed.
fn read_head<'a>(lines: &mut Lines<impl Read>, numbers: &'a mut [u32; 8000]) -> Option<Head<'a>> {
    let head = lines.head()?;
    let lf = find_lf(head)?;
    let count = script_line::read_windows(&head[..lf])?;
    let n = journal_text::read(&head[lf + 1..], numbers).ok()?;
    if 2000 < n {
        return None;
    }
    let journal = &numbers[..4 * n];
    Some(Head { count, journal })
}

// Plays the steps after the head, one line after another. A proved loop has to end, and nothing says that an input does,
// so it counts the steps, up to a number that no run comes to.
fn play_steps(
    lines: &mut Lines<impl Read>,
    out: &mut Output<'_, impl Print>,
    head: Head,
    mut stage: Stage,
) -> Option<()> {
    for number in 1..=u64::MAX {
        let Some(line) = lines.next_line(out) else {
            break;
        };
        let stepped = stage.step(head.journal, script_line::read_step(line)?);
        stage = stepped.stage;
        out.put_answer(number, stepped.reply);
    }
    if !lines.is_empty() {
        return None;
    }
    out.put_windows(&stage, head.count);
    Some(())
}
