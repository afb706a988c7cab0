// Cases of the planner, a line each: the edges of every range of document 02, W4, and the order of its refusals.
#![tactic(auto)]

use journal::Index;
use planner::{Refusal, plan};
use std::{fmt, io};

// Writes the case's name, the answer and, where it is 0, the three figures.
fn show(
    rt: &impl Print,
    name: impl fmt::Display + Drop,
    journal: &[u32],
    w: u32,
    last: u32,
    limit: u32,
) -> io::Result<()> {
    match plan(journal, w, Index(last), limit) {
        Ok(needs) => println!(rt;
            "{name}: answer 0, entries {}, batches {}, numbers {}",
            needs.entries, needs.batches, needs.numbers
        ),
        Err(Refusal::OutOfShape) => println!(rt; "{name}: answer 1"),
        Err(Refusal::NoSuchWindow) => println!(rt; "{name}: answer 2"),
    }
}

// Five entries. Window 0 has those at 1, 3 and 4, window 1 those at 2, 3 and 5, windows 15 and 16 the one at 5.
fn five() -> [u32; 20] {
    [
        1, 1, 1, 50400, 2, 2, 1, 350, 3, 2, 1, 400, 1, 3, 1, 0, 98306, 4, 0, 0,
    ]
}

fn counts(rt: &impl Print, j: &[u32]) -> io::Result<()> {
    show(rt, "nothing left", j, 0, 4, 2)?;
    show(rt, "one entry left", j, 0, 3, 2)?;
    show(rt, "one fewer than the limit", j, 0, 0, 4)?;
    show(rt, "exactly the limit", j, 0, 0, 3)?;
    show(rt, "one more than the limit", j, 0, 0, 2)?;
    show(rt, "last index of its own entry", j, 0, 1, 2)?;
    show(rt, "last index of another window's entry", j, 0, 2, 2)?;
    show(rt, "another window", j, 1, 0, 2)
}

fn lasts(rt: &impl Print, j: &[u32]) -> io::Result<()> {
    show(rt, "last index L", j, 0, 5, 2)?;
    show(rt, "last index L + 1", j, 0, 6, 2)?;
    show(rt, "last index 4294967295", j, 0, 4294967295, 2)
}

fn windows(rt: &impl Print, j: &[u32]) -> io::Result<()> {
    for w in [15, 16, 32, 4294967295] {
        show(rt, format_args!("window {w}"), j, w, 0, 2)?;
    }
    Ok(())
}

fn limits(rt: &impl Print, j: &[u32]) -> io::Result<()> {
    for limit in [0, 1, 32, 33, 4294967295] {
        show(rt, format_args!("limit {limit}"), j, 0, 0, limit)?;
    }
    Ok(())
}

// 1 before 2.
fn orders(rt: &impl Print, j: &[u32], ragged: &[u32]) -> io::Result<()> {
    show(rt, "window 16, last index L + 1", j, 16, 6, 2)?;
    show(rt, "window 16, limit 0", j, 16, 0, 0)?;
    show(rt, "window 16, limit 33", j, 16, 0, 33)?;
    show(rt, "window 16, 5 numbers", ragged, 16, 0, 2)
}

// The first numbers of 65,536 entries of ones, all for window 0 alone.
fn sizes(rt: &impl Print, many: &[u32; 262144]) -> io::Result<()> {
    show(rt, "empty journal", &[], 0, 0, 32)?;
    show(rt, "empty journal, last index 1", &[], 0, 1, 32)?;
    show(rt, "4 numbers", &many[..4], 0, 0, 32)?;
    show(rt, "5 numbers", &many[..5], 0, 0, 32)?;
    show(rt, "5 numbers, last index 1", &many[..5], 0, 1, 32)?;
    for entries in [32, 33, 64, 65, 65535] {
        show(
            rt,
            format_args!("{entries} entries"),
            &many[..4 * entries],
            0,
            0,
            32,
        )?;
    }
    let most = &many[..262140];
    show(rt, "65535 entries, limit 1", most, 0, 0, 1)?;
    for last in [65534, 65535, 65536] {
        show(
            rt,
            format_args!("65535 entries, last index {last}"),
            most,
            0,
            last,
            32,
        )?;
    }
    show(rt, "65536 entries", many, 0, 0, 32)
}

fn main(rt: HostRuntime) -> io::Result<()> {
    let j = five();
    counts(&rt, &j)?;
    lasts(&rt, &j)?;
    windows(&rt, &j)?;
    limits(&rt, &j)?;
    orders(&rt, &j, &[1, 1, 1, 50400, 1])?;
    sizes(&rt, &[1; 262144])
}
