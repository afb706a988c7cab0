// Answers, collected in a buffer and written to standard output when it is full.
ghost use Rattle.std.specs.Prelude.{◌≡◌};
ghost use Rattle.arrayvec.specs.ArrayVec.{array_vec_len};

use arrayvec::ArrayVec;
use script::{Reply, Stage};
use std::fmt;
use std::fmt::Write;

// Standard output, and the bytes that wait to be written. std's `BufWriter` needs an allocator, and there is no heap here.
#[derive(Drop)]
pub(crate) struct Output<'a, P: Print> {
    rt: &'a P,
    waiting: ArrayVec<u8, 4096>,
}

impl<P: Print> Write for Output<'_, P> {
    fn write_str(&mut self, text: &str) -> fmt::Result {
        for &byte in text.as_bytes() {
            self.put(byte);
        }
        Ok(())
    }
}

impl<'a, P: Print> Output<'a, P> {
    pub(crate) fn new(rt: &'a P) -> Output<'a, P> {
        Output {
            rt,
            waiting: ArrayVec::new(),
        }
    }

    // Writes all that waits. A write that fails is passed over.
    // By `write_all`: bytes need be no text, which `print!` takes.
    pub(crate) fn flush(&mut self)
        ensures { array_vec_len self.new.waiting ≡ 0 }
    {
        let _ = self.rt.write_all(self.waiting.as_slice());
        self.waiting.clear();
    }

    // Puts a byte, once all that waits is written where the buffer is full.
    fn put(&mut self, byte: u8) {
        if self.waiting.is_full() {
            self.flush();
        }
        self.waiting.push(byte);
    }

    // Puts a step's number and its answer, a line.
    pub(crate) fn put_answer(&mut self, number: u64, reply: Reply) {
        let _ = match reply {
            Reply::Answered(answer) => writeln!(self, "{number} {answer}"),
            Reply::Empty => writeln!(self, "{number} -"),
        };
    }

    // Puts a line for each of the first windows, `count` of them: its number, its last index and its count.
    // Alike in runner and meeting: reading and printing stand in no library (docs/DECISIONS.md).
    pub(crate) fn put_windows(&mut self, stage: &Stage, count: u32) {
        for (w, record) in stage.records.iter().take(count as usize).enumerate() {
            let _ = writeln!(self, "window {w} {} {}", record.last.0, record.count);
        }
    }

    // Puts the line `bad`.
    pub(crate) fn refuse(&mut self) {
        let _ = writeln!(self, "bad");
    }
}
