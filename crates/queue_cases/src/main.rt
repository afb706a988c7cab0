// Queues and batches at the edges of their sizes. Standard input has a line for each case: a label, a colon, and letters, each of which
// does a thing to a queue and to batches or shows one of them, with the number that stands before it. `M` stands for the largest number.
// A line starts with a new queue and new batches. The program writes the label, the colon and what the letters show.
//
// | letter | what it does, to both unless it names one | letter | what it shows: small of the queue, large of the batches |
// |---|---|---|---|
// | `p` | push of the number | `i`, `I` | the first four indices, the first nine |
// | `s` | skip of the number, of the queue | `z`, `Z` | the size |
// | `k` | those above the number, of the batches | `a`, `A` | the item at the number |
// | `c` | clear | `w`, `W` | whether all lie within the number |
// | `f` | the constant of each | | |
// | `u` | pushes of 1 up to the number | | |
// | `h` | handed in: the number before this one in every cell, or 0 where none can hold it, and this one as length | | |
#![tactic(auto)]

mod bench;
mod show;

use bench::Bench;
use std::io;
use std::io::Read;

// Plays the bytes of the cases, one after another.
fn play(rt: &impl Print, text: &[u8]) -> io::Result<()> {
    let mut bench = Bench::new();
    for &byte in text {
        bench = bench.feed(rt, byte)?;
    }
    Ok(())
}

fn main(rt: HostRuntime) -> io::Result<()> {
    let mut text = Vec::new(rt.alloc());
    rt.reader().take(65536).read_to_end(&mut text)?;
    play(&rt, &text)
}
