// A line of the input: whether its label is still being read, and its last four numbers, the oldest first.
#[derive(Clone, Copy)]
pub(crate) struct Line {
    pub(crate) naming: bool,
    pub(crate) numbers: [u32; 4],
}

impl Line {
    // With no number yet.
    pub(crate) fn fresh(naming: bool) -> Line {
        Line {
            naming,
            numbers: [0; 4],
        }
    }

    // After one more byte: within the label; or a line end, a blank after a number, a digit, or a letter.
    pub(crate) fn fed(self, byte: u8) -> Line {
        if self.naming {
            return Line::fresh(byte != b':');
        }
        let [a, b, c, d] = self.numbers;
        match byte {
            b'\n' => Line::fresh(true),
            b' ' => Line {
                numbers: [b, c, d, 0],
                ..self
            },
            ..=b'9' => Line {
                numbers: [a, b, c, longer(d, byte)],
                ..self
            },
            _ => Line::fresh(false),
        }
    }
}

// The number with one more digit, or the largest number.
fn longer(n: u32, digit: u8) -> u32 {
    n.saturating_mul(10).saturating_add(u32::from(digit % 16))
}
