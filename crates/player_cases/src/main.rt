// Every refusal of the player's operations, and what they make of a state. Standard input has a line for each case: a
// label, a colon, and letters with the numbers before them. A small letter changes the state. A large one asks an
// operation and shows the answer, or shows what the player then holds. A state is wrong in two ways where that shows
// the order of the checks. `n` and `g` put 0 for a number that no cell can hold.
//
// | letter | what it sets | letter | what it asks |
// |---|---|---|---|
// | `=` | the lines that follow start at this state | `M` | Main: index |
// | `o` | W, batch limit, `current` | `C` | Catch: window, term, index |
// | `v` | one more entry of the journal: windows, kind, race, value | `S` | Send: window, size of the output lent, how much is shown |
// | `j` | how many numbers of the journal count | `W` | Written: window, term |
// | `x` | the spacing | `N`, `Q` | at the window on its own: Main: spacing, index; Catch: term, index |
// | `r`, `y` | one more report for Start; its first term, 1 where none is set | `A` | Ack: window, term, index |
// | `t` | the window that the letters below change | `D` | Drop: window |
// | `i` | every window as this one is | `J` | Join: window, report |
// | `h` | idle | `P` | Start: spacing, the set of silent windows, W, batch limit |
// | `l` | term, acknowledged, sent, and 1 for busy | `O` | Send at the window on its own, lent five numbers |
// | `f` | Fetching: next, end | `I` | each operation at a window that no player has |
// | `e` | Completed: end | `Z` | the same over a journal of so many zeros |
// | `s` | Suspended | | what it shows |
// | `b` | batches: an index in every cell, how many | `K` | `current` |
// | `u` | one more batch | `L`, `E` | W and the batch limit; the spacing |
// | `n`, `g` | normal, catch-up queue: an index in every cell, how many | `V` | a window, with the sizes of its queues |
// | `p`, `q` | one more index in it | `U` | a window, with its batches and the first three indices of its queues |
#![tactic(auto)]

mod ask;
mod bench;
mod line;
mod show;
mod state;
mod windows;

use bench::Bench;
use std::io;
use std::io::Read;

// Plays the bytes of the cases, one after another. The letter Z has room for 65,536 entries of zeros.
fn play(rt: &impl Print, text: &[u8]) -> io::Result<()> {
    let zeros = [0; 262144];
    let mut bench = Bench::new();
    for &byte in text {
        bench = bench.feed(rt, &zeros, byte)?;
    }
    Ok(())
}

fn main(rt: HostRuntime) -> io::Result<()> {
    let mut text = Vec::new(rt.alloc());
    rt.reader().take(65536).read_to_end(&mut text)?;
    play(&rt, &text)
}
