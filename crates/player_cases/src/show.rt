// What a case shows.
use crate::state::window_of;
use player::Player;
use queue::Queue;
use std::io;
use window::{Answer, Condition, Head, Window};

// A byte as it stands. By `write_all`: bytes need be no text, which `print!` takes.
pub(crate) fn byte(rt: &impl Print, b: u8) -> io::Result<()> {
    rt.write_all(&[b])
}

pub(crate) fn answer(rt: &impl Print, given: Answer) -> io::Result<()> {
    print!(rt; " {}", window::number(given))
}

// The last fifteen numbers at most of the first `n` of a list; nothing where there are fewer than `n`.
fn first(rt: &impl Print, name: &str, list: &[u32], n: usize) -> io::Result<()> {
    let Some(front) = list.get(..n) else {
        return Ok(());
    };
    print!(rt; ", {name}")?;
    for number in &front[n.saturating_sub(15)..] {
        print!(rt; " {number}")?;
    }
    Ok(())
}

// An output, of which the first `n` are shown.
pub(crate) fn out(rt: &impl Print, list: &[u32], n: usize) -> io::Result<()> {
    first(rt, "out", list, n)
}

// Each condition by its own words, which are no derived form.
fn condition(rt: &impl Print, c: Condition) -> io::Result<()> {
    match c {
        Condition::Normal => print!(rt; ", Normal"),
        Condition::Fetching { next, end } => print!(rt; ", Fetching {} to {}", next.0, end.0),
        Condition::Completed { end } => print!(rt; ", Completed {}", end.0),
        Condition::Suspended => print!(rt; ", Suspended"),
    }
}

// A term, a line and a condition.
fn head(rt: &impl Print, h: Head) -> io::Result<()> {
    let line = if h.busy { "busy" } else { "free" };
    print!(rt;
        ": term {}, acked {}, sent {}, {line}",
        h.term.0, h.acked.0, h.sent.0
    )?;
    condition(rt, h.condition)
}

// How many batches there are, and how many indices each queue has.
fn sizes(rt: &impl Print, x: Window) -> io::Result<()> {
    print!(rt;
        ", batches {}, normal {}, catch-up {}",
        x.head.batches.len, x.normal.len, x.catch_up.len
    )
}

// The first three indices of a queue.
fn three(rt: &impl Print, name: &str, q: Queue) -> io::Result<()> {
    print!(rt; ", {name}")?;
    // By `item`, the call that the case shows.
    for k in 0..q.size().min(3) {
        print!(rt; " {}", q.item(k))?;
    }
    Ok(())
}

// The batches, and the first three indices of each queue.
fn items(rt: &impl Print, x: Window) -> io::Result<()> {
    first(rt, "batches", &x.head.batches.cells, x.head.batches.len)?;
    three(rt, "normal", x.normal)?;
    three(rt, "catch-up", x.catch_up)
}

// A window, in a place.
fn window(rt: &impl Print, x: Window, w: u32, letter: u8) -> io::Result<()> {
    print!(rt; "; {w}")?;
    head(rt, x.head)?;
    if letter == b'V' {
        sizes(rt, x)
    } else {
        items(rt, x)
    }
}

// What a letter shows of a player; nothing where it is none of these.
pub(crate) fn letter(rt: &impl Print, p: Player, w: u32, letter: u8) -> io::Result<()> {
    match letter {
        b'K' => print!(rt; ", current {}", p.current.0),
        b'L' => print!(rt; ", windows {}, limit {}", p.count, p.limit),
        b'E' => print!(rt; ", spacing {}", p.spacing),
        b'V' | b'U' => window(rt, window_of(p, w as usize), w, letter),
        _ => Ok(()),
    }
}
