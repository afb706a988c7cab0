// Windows made by hand.
use journal::Index;
use queue::{Cell, Row};
use rules::Term;
use window::{Condition, Head, Window};

// A window of term 7 that was sent nothing, with a free line and nothing queued or out.
pub(crate) fn idle() -> Window {
    Window::started(Term(7), Index(0))
}

// A row with the number in every cell, or 0 where no cell can hold it, and any length.
fn filled<C: Cell, const N: usize>(number: u32, len: u32) -> Row<C, N> {
    Row {
        cells: [C::holding(number).unwrap_or(C::NONE); N],
        len: len as usize,
    }
}

// What a letter makes of a head.
fn head(before: Head, numbers: [u32; 4], letter: u8) -> Head {
    let [a, b, c, d] = numbers;
    match letter {
        b'l' => Head {
            term: Term(a),
            acked: Index(b),
            sent: Index(c),
            busy: d == 1,
            ..before
        },
        b'f' => Head {
            condition: Condition::Fetching {
                next: Index(c),
                end: Index(d),
            },
            ..before
        },
        b'e' => Head {
            condition: Condition::Completed { end: Index(d) },
            ..before
        },
        b's' => Head {
            condition: Condition::Suspended,
            ..before
        },
        b'b' => Head {
            batches: filled(c, d),
            ..before
        },
        b'u' => Head {
            batches: before.batches.push(d),
            ..before
        },
        _ => before,
    }
}

// The window that a letter makes of a window.
pub(crate) fn set(window: Window, numbers: [u32; 4], letter: u8) -> Window {
    let [_, _, c, d] = numbers;
    match letter {
        b'h' => idle(),
        b'n' => Window {
            normal: filled(c, d),
            ..window
        },
        b'p' => Window {
            normal: window.normal.push(d),
            ..window
        },
        b'g' => Window {
            catch_up: filled(c, d),
            ..window
        },
        b'q' => Window {
            catch_up: window.catch_up.push(d),
            ..window
        },
        _ => Window {
            head: head(window.head, numbers, letter),
            ..window
        },
    }
}
