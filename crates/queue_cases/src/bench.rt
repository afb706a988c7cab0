// What stands between two bytes of the input: a queue, batches and the numbers read so far; and what each byte does to them.
use crate::show;
use queue::{Batches, Queue};
use std::io;

// The queue and the batches of a case, the last number, the one before it, and whether the label is still being read.
#[derive(Clone, Copy)]
pub(crate) struct Bench {
    queue: Queue,
    batches: Batches,
    number: u64,
    before: u64,
    naming: bool,
}

// The number as an index, or the largest index.
fn index_of(n: u64) -> u32 {
    u32::try_from(n).unwrap_or(u32::MAX)
}

// The number with one more digit, where it is not too long.
fn longer(n: u64, digit: u8) -> u64 {
    if n < 1000000000000000 {
        return n * 10 + (digit % 10) as u64;
    }
    n
}

impl Bench {
    // At the start of a line.
    pub(crate) fn new() -> Bench {
        Bench {
            naming: true,
            ..Bench::made(Queue::new(), Batches::new())
        }
    }

    // Within a line, with no number yet.
    fn made(queue: Queue, batches: Batches) -> Bench {
        Bench {
            queue,
            batches,
            number: 0,
            before: 0,
            naming: false,
        }
    }

    // The queue and the batches after the pushes of 1 to n.
    fn pushed_to(n: u32) -> Bench {
        let mut q = Queue::new();
        let mut b = Batches::new();
        for x in 1..=n {
            q = q.push(x);
            b = b.push(x);
        }
        Bench::made(q, b)
    }

    // A queue and batches that are handed in with one index in every cell, and any length.
    fn handed(x: u32, len: usize) -> Bench {
        let one = Queue::new().push(x);
        let queue = Queue {
            cells: [one.cells[0]; 128],
            len,
        };
        Bench::made(queue, Batches { cells: [x; 8], len })
    }

    // What a letter does, or shows.
    fn letter(self, rt: &impl Print, byte: u8) -> io::Result<Bench> {
        let q = self.queue;
        let b = self.batches;
        let n = self.number as usize;
        let x = index_of(self.number);
        Ok(match byte {
            b'p' => Bench::made(q.push(x), b.push(x)),
            b's' => Bench::made(q.skip(n), b),
            b'k' => Bench::made(q, b.above(x)),
            b'c' => Bench::made(q.clear(), b.clear()),
            b'f' => Bench::made(Queue::FRESH, Batches::FRESH),
            b'u' => Bench::pushed_to(x),
            b'h' => Bench::handed(index_of(self.before), n),
            b'M' => Bench {
                number: u64::MAX,
                ..self
            },
            b' ' => Bench {
                number: 0,
                before: self.number,
                ..self
            },
            b'w' => {
                show::answer(rt, q.within(x))?;
                Bench::made(q, b)
            }
            b'W' => {
                show::answer(rt, b.within(x))?;
                Bench::made(q, b)
            }
            _ => {
                if byte.is_ascii_uppercase() {
                    show::letter(rt, b, 9, n, byte.to_ascii_lowercase())?;
                } else {
                    show::letter(rt, q, 4, n, byte)?;
                }
                Bench::made(q, b)
            }
        })
    }

    // The bench after one more byte. By `write_all`: bytes need be no text, which `print!` takes.
    pub(crate) fn feed(self, rt: &impl Print, byte: u8) -> io::Result<Bench> {
        if byte == b'\n' {
            rt.write_all(&[byte])?;
            return Ok(Bench::new());
        }
        if self.naming {
            rt.write_all(&[byte])?;
            return Ok(Bench {
                naming: byte != b':',
                ..self
            });
        }
        if byte.is_ascii_digit() {
            return Ok(Bench {
                number: longer(self.number, byte - b'0'),
                ..self
            });
        }
        self.letter(rt, byte)
    }
}
