// What stands between two bytes of the input, and what each byte does to it.
use crate::line::Line;
use crate::state::State;
use crate::{ask, show};
use std::io;

// The state at which a line starts, that of the case, and the line so far.
#[derive(Clone, Copy)]
pub(crate) struct Bench {
    start: State,
    state: State,
    line: Line,
}

impl Bench {
    // At the first byte.
    pub(crate) fn new() -> Bench {
        Bench {
            start: State::new(),
            state: State::new(),
            line: Line::fresh(true),
        }
    }

    // The state after one more byte, of which a letter can change it.
    fn after(self, rt: &impl Print, zeros: &[u32], byte: u8) -> io::Result<State> {
        if self.line.naming || byte == b'\n' {
            show::byte(rt, byte)?;
            return Ok(self.start);
        }
        let numbers = self.line.numbers;
        let asked = ask::letter(rt, self.state, zeros, numbers, byte)?;
        Ok(asked.set(numbers, byte))
    }

    // The bench after one more byte.
    pub(crate) fn feed(self, rt: &impl Print, zeros: &[u32], byte: u8) -> io::Result<Bench> {
        let state = self.after(rt, zeros, byte)?;
        Ok(Bench {
            start: if byte == b'=' { state } else { self.start },
            state,
            line: self.line.fed(byte),
        })
    }
}
