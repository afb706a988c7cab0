// What stands between two bytes of the input: the text and the numbers read so far; and what each byte does to them.
ghost use Rattle.std.specs.Prelude.{◌≤◌};

use crate::show;
use std::io;

// What the next byte belongs to.
#[derive(Clone, Copy)]
enum Part {
    Label,
    Letters,
    Text,
}

// The text of a case, and its last three numbers, the oldest first. The text is a buffer with its size, and no slice of the input, since
// it may stand between several pairs of `<` and `>`.
#[derive(Clone, Copy)]
pub(crate) struct Bench {
    text: [u8; 64],
    size: usize,
    ghost inside: { size ≤ 64 },
    oldest: u64,
    older: u64,
    number: u64,
    part: Part,
}

// A number as 32 bits, or the largest of these.
fn narrow(n: u64) -> u32 {
    u32::try_from(n).unwrap_or(u32::MAX)
}

// The number with one more digit, where it is not too long.
fn longer(n: u64, digit: u8) -> u64 {
    if n < 1000000000000000 {
        n * 10 + u64::from(digit)
    } else {
        n
    }
}

impl Bench {
    // At the start of a line.
    pub(crate) const START: Bench = Bench {
        text: [0; 64],
        size: 0,
        oldest: 0,
        older: 0,
        number: 0,
        part: Part::Label,
    };

    // One more byte of the text, where it has room.
    fn store(&mut self, byte: u8) {
        if self.size < 64 {
            self.text[self.size] = byte;
            self.size += 1;
        }
    }

    // What a letter shows. A `match`: each letter reads other numbers.
    fn show(&self, rt: &impl Print, letter: u8) -> io::Result<()> {
        match letter {
            b'r' => show::read(
                rt,
                &self.text[..self.size],
                self.older as usize,
                narrow(self.number),
            ),
            b'd' => show::digits(rt, narrow(self.number)),
            b'w' => show::written(
                rt,
                narrow(self.oldest),
                self.older as usize,
                self.number as usize,
            ),
            _ => Ok(()),
        }
    }

    // A byte that is none of the label's and none of the text's.
    fn letter(&mut self, rt: &impl Print, byte: u8) -> io::Result<()> {
        match byte {
            b'0'..=b'9' => self.number = longer(self.number, byte - b'0'),
            b' ' => {
                self.oldest = self.older;
                self.older = self.number;
                self.number = 0;
            }
            b'M' => self.number = u64::MAX,
            b'<' => self.part = Part::Text,
            b'\n' => {
                show::byte(rt, byte)?;
                *self = Bench::START;
            }
            _ => self.show(rt, byte)?,
        }
        Ok(())
    }

    // One more byte.
    pub(crate) fn feed(&mut self, rt: &impl Print, byte: u8) -> io::Result<()> {
        match self.part {
            Part::Label => {
                show::byte(rt, byte)?;
                if byte == b':' {
                    self.part = Part::Letters;
                }
            }
            Part::Letters => self.letter(rt, byte)?,
            Part::Text if byte == b'>' => self.part = Part::Letters,
            Part::Text => self.store(byte),
        }
        Ok(())
    }
}
