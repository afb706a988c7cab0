// Lines from an input, by way of a buffer of fixed size.
ghost use Rattle.std.specs.Prelude.{◌+◌, ◌≤◌, ◌<◌, ◌≡◌, IsTrue, IfSome, length};
ghost use Rattle.arrayvec.specs.ArrayVec.{array_vec_len};
ghost use Rattle.runner.specs.declared.input.TheConstants.{SIZE};

use crate::output::Output;
use std::io::Read;

const SIZE: usize = 65536;

// The most bytes of a step line that are looked at for its LF. No step line has so many.
const LONGEST: usize = 16;

// An input, and a buffer whose bytes from `at` on and before `end` are read and not yet passed. std's `BufReader` needs an
// allocator, and there is no heap here.
#[derive(Drop)]
pub(crate) struct Lines<R> {
    reader: R,
    buf: [u8; SIZE],
    at: usize,
    end: usize,
    ghost in_order: { at ≤ end },
    ghost within: { end ≤ SIZE },
}

// The place of the first LF.
pub(crate) fn find_lf(bytes: &[u8]) -> Option<usize>
    ensures { IfSome result (λ i. i < length bytes.now) }
{
    bytes.iter().position(|&byte| byte == b'\n')
}

impl<R: Read> Lines<R> {
    pub(crate) fn new(reader: R) -> Lines<R> {
        Lines {
            reader,
            buf: [0; SIZE],
            at: 0,
            end: 0,
        }
    }

    // Whether every byte that was read is passed.
    pub(crate) fn is_empty(&self) -> bool {
        self.at == self.end
    }

    // Reads once, and answers whether bytes came. None do at the end of the input, where the buffer is full and where the
    // read fails.
    fn read_more(&mut self) -> bool
        ensures stays { self.new.at ≡ self.old.at }
        ensures grows { IsTrue result → self.old.end < self.new.end }
    {
        let got = self.reader.read(&mut self.buf[self.end..]).unwrap_or(0);
        self.end += got;
        0 < got
    }

    // Passes lines until one is `run`, and answers the bytes before that one. None where the buffer is full or the input
    // ends first. A loop: it counts nothing, and whether there is more to read is known only once it is read.
    pub(crate) fn head(&mut self) -> Option<&[u8]> {
        loop {
            if let Some(n) = find_lf(&self.buf[self.at..self.end]) {
                let start = self.at;
                let lf = start + n;
                self.at = lf + 1;
                if script_line::is_run(&self.buf[start..lf]) {
                    return Some(&self.buf[..start]);
                }
            } else if !self.read_more() {
                return None;
            }
        }
    }

    // How many bytes the next step line has before its LF. None where no LF is found.
    fn step_len(&self) -> Option<usize>
        ensures { IfSome result (λ n. self.now.at + n < self.now.end) }
    {
        let rest = &self.buf[self.at..self.end];
        find_lf(&rest[..rest.len().min(LONGEST)])
    }

    // Moves the bytes that are not passed to the front of the buffer.
    fn move_front(&mut self)
        ensures { (self.new.at ≡ 0) × (self.new.end + self.old.at ≡ self.old.end) }
    {
        self.buf.copy_within(self.at..self.end, 0);
        self.end -= self.at;
        self.at = 0;
    }

    // Reads on from a step line that has no LF yet, until it has one, it is too long or the input ends. A loop: it counts
    // nothing, and how far a read comes is known only once it is made.
    fn read_step_len(&mut self) -> Option<usize>
        ensures { IfSome result (λ n. self.new.at + n < self.new.end) }
    {
        self.move_front();
        while self.end < LONGEST && self.read_more() {
            if let Some(n) = self.step_len() {
                return Some(n);
            }
        }
        None
    }

    // The next step line, which is passed. None where there is none, or it has no LF or is too long. Where it is not whole
    // in the buffer, the output that waits is written before more is read.
    pub(crate) fn next_line(&mut self, out: &mut Output<'_, impl Print>) -> Option<&[u8]>
        ensures { array_vec_len out.new.waiting ≤ array_vec_len out.old.waiting }
    {
        let n = match self.step_len() {
            Some(n) => n,
            None => {
                out.flush();
                self.read_step_len()?
            }
        };
        let start = self.at;
        let lf = start + n;
        self.at = lf + 1;
        let buf = &self.buf;
        Some(&buf[start..lf])
    }
}
