// Journal text: the vectors t01.in to t40.in, which are texts, and c01.in to c12.in, which are journals for the pass, with what they come
// to in `.want`, and in `.old` by the reader for old files; and the limits of length, room, shape, kinds and values. Standard input has a
// line for each case: letters with the numbers after them, which do something to a text and to the numbers of a journal, or show something
// of them; and labels between quotes, which are shown. A blank or a line end follows each number.
//
// | letter | what it does | letter | what it shows |
// |---|---|---|---|
// | `v` | the vector of a name becomes the text | `r` | what reading the text into the first so many numbers answers |
// | `<` | adds the bytes up to `>` to the text | `o` | the same by the reader for old files |
// | `z` | gives the text a size | `c` | what the pass over the first so many numbers answers |
// | `n` | stores the numbers that the text shows | `e` | the first so many numbers, four to a line |
// | `j` | stores at a place a number | `w` | what writing the first so many numbers over so many bytes of the text answers |
// | `f` | fills the journal with notes to window 0 | `k` | whether writing the first so many numbers elsewhere gives the text |
#![tactic(auto)]

mod calls;
mod input;
mod numbers;
mod show;
mod text;

ghost use Rattle.std.specs.Prelude.{◌≡◌, length};

use std::io;
use std::io::Read;
use std::rt::Files;

// So many zeros.
fn zeros<const N: usize>() -> [u8; N]
    ensures { N ≡ length result }
{
    [0; N]
}

// Room for a text of 65,536 lines. It is no literal where it is used: there the check runs out of stack.
fn text_room() -> [u8; 1200000]
    ensures { 1200000 ≡ length result }
{
    zeros()
}

// Room for 65,536 entries.
fn entry_room() -> [u32; 262144]
    ensures { 262144 ≡ length result }
{
    [0; 262144]
}

// Plays the letters of the input, of which there are at most 10,000.
fn play(
    rt: &(impl Files + Print + Eprint),
    input: &mut impl Read,
    text: &mut [u8],
    journal: &mut [u32],
) -> io::Result<()> {
    let mut size = 0;
    for _ in 0..10000 {
        let letter = input::next(input)?;
        match letter {
            b'v' => size = text::load(rt, input, text)?,
            b'z' => size = input::number(input)?,
            b'<' => size = text::add(input, text, size)?,
            b'"' => input::label(rt, input)?,
            b'n' => {
                if let Some(text) = text.get(..size) {
                    numbers::shown(text, journal);
                }
            }
            b'e' => numbers::entries(rt, input, journal)?,
            b'f' => numbers::fill(journal),
            b'j' => numbers::store(input, journal)?,
            b'w' => calls::write(rt, input, text, journal)?,
            b'c' => calls::clean(rt, input, journal)?,
            b'r' | b'o' | b'k' => {
                if let Some(text) = text.get(..size) {
                    calls::with_text(rt, input, letter, text, journal)?;
                }
            }
            _ => {}
        }
    }
    Ok(())
}

fn main(rt: HostRuntime) -> io::Result<()> {
    let mut text = text_room();
    let mut journal = entry_room();
    play(&rt, &mut rt.reader(), &mut text, &mut journal)
}
