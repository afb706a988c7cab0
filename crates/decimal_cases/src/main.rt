// Reads and writes of decimal numerals at the edges of their bounds, shapes and places. Standard input has a line for each case: a
// label, a colon, a text between `<` and `>` where the case has one, and a letter with the numbers before it. `M` stands for the largest
// number. The program writes the label, the colon and what the letter shows.
//
// | letter | what it shows |
// |---|---|
// | `r` | the number read from the text at a place, up to a bound, with the place after it |
// | `d` | how many digits a number has |
// | `w` | the place after a number that is written to a buffer of a size at a place, and the buffer |
#![tactic(auto)]

mod bench;
mod show;

use bench::Bench;
use std::io;
use std::io::Read;

fn main(rt: HostRuntime) -> io::Result<()> {
    let mut text = Vec::new(rt.alloc());
    rt.reader().take(4096).read_to_end(&mut text)?;
    let mut bench = Bench::START;
    for byte in &text {
        bench.feed(&rt, *byte)?;
    }
    Ok(())
}
