// Prints what the functions of `journal` answer at the edges of their ranges, a line for each case.
#![tactic(auto)]

use journal::Index;
use std::io;

// An answer in words.
fn answer(yes: bool) -> &'static str {
    if yes { "yes" } else { "no" }
}

// The count of numbers, whether they are in shape, and the number of entries.
fn shape(rt: &impl Print, j: &[u32]) -> io::Result<()> {
    println!(rt;
        "shape {} {} {}",
        j.len(),
        answer(journal::in_shape(j)),
        journal::entries(j)
    )
}

// The four numbers at an index.
fn entry(rt: &impl Print, j: &[u32], i: u32) -> io::Result<()> {
    let e = journal::entry_at(j, Index(i));
    println!(rt; "entry {i} {} {} {} {}", e.set, e.kind, e.race, e.value)
}

// Whether the entry at an index is for a window.
fn is_for(rt: &impl Print, j: &[u32], i: u32, w: u32) -> io::Result<()> {
    println!(rt; "for {i} {w} {}", answer(journal::is_for(j, Index(i), w)))
}

fn main(rt: HostRuntime) -> io::Result<()> {
    // Room for 65,537 entries.
    let many = [0; 262148];
    for n in [0, 1, 3, 4, 5, 8, 262136, 262139, 262140, 262141, 262144] {
        if let Some(front) = many.get(..n) {
            shape(&rt, front)?;
        }
    }
    let j: [u32; 15] = [
        3, 1, 1, 50400, 2147483649, 2, 12, 350, 4294967295, 3, 7, 4294967295, 5, 1, 1,
    ];
    for i in [0, 1, 2, 3, 4, 65535, 4294967295] {
        entry(&rt, &j, i)?;
    }
    for (i, w) in [
        (0, 0),
        (1, 0),
        (1, 1),
        (1, 2),
        (2, 0),
        (2, 1),
        (2, 15),
        (2, 30),
        (2, 31),
        (2, 32),
        (3, 16),
        (3, 31),
        (3, 32),
        (3, 63),
        (3, 4294967295),
        (4, 0),
        (4294967295, 0),
    ] {
        is_for(&rt, &j, i, w)?;
    }
    Ok(())
}
