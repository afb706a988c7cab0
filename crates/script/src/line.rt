// A window's line: the entries on their way to it as Send wrote them, and the acks on their way back.
ghost use Rattle.std.specs.Prelude.{◌+◌, ◌≤◌, ◌<◌, ◌≡◌, length};
ghost use Rattle.script.specs.Line.{no_sent, no_ack, fresh_line, five_at, batch_shown, Grown, TakenOff, AckedOff};

use journal::Index;
use queue::{Item, Row};
use rules::Term;

// An entry on its way: its five numbers, the term of its batch, and whether it is the batch's last.
#[derive(Clone, Copy)]
pub struct Sent {
    pub numbers: [u32; 5],
    pub term: Term,
    pub ends: bool,
}

// An ack on its way back: the term of a batch and its last index.
#[derive(Clone, Copy)]
pub struct Ack {
    pub term: Term,
    pub index: Index,
}

impl Item for Sent {
    ghost NONE = { no_sent };

    const NONE: Sent = Sent {
        numbers: [0; 5],
        term: Term(0),
        ends: false,
    };
}

impl Item for Ack {
    ghost NONE = { no_ack };

    const NONE: Ack = Ack {
        term: Term(0),
        index: Index(0),
    };
}

// Entries on their way, oldest first. A run has at most 16 of them, and a step adds at most two.
pub type Entries = Row<Sent, 18>;

// Acks on their way back, oldest first. A run has at most 8 of them, and a step adds at most one.
pub type Acks = Row<Ack, 9>;

// Both ways of a line.
#[derive(Clone, Copy)]
pub struct Line {
    pub entries: Entries,
    pub acks: Acks,
}

// Five of the numbers, from a place on.
fn five_at(numbers: &[u32], at: usize) -> [u32; 5]
    requires { at + 5 ≤ length numbers.now }
    ensures { result ≡ five_at at numbers.now }
{
    [
        numbers[at],
        numbers[at + 1],
        numbers[at + 2],
        numbers[at + 3],
        numbers[at + 4],
    ]
}

impl Line {
    // Nothing on its way.
    pub(crate) fn new() -> Line
        ensures { result ≡ fresh_line }
    {
        Line {
            entries: Entries::new(),
            acks: Acks::new(),
        }
    }

    // The line with the batch on it that Send wrote into an output of ten numbers: of one entry where the second index is 0, else of two.
    // No Option of a second entry: `batch_shown` reads the output so.
    pub(crate) fn loaded(self, out: [u32; 10], term: Term) -> Line
        requires { self.entries.len ≤ 16 }
        ensures { Grown self (batch_shown out term) result }
    {
        let ends = out[5] == 0;
        let entries = self.entries.append(Sent {
            numbers: five_at(&out, 0),
            term,
            ends,
        });
        if ends {
            return Line { entries, ..self };
        }
        let last = Sent {
            numbers: five_at(&out, 5),
            term,
            ends: true,
        };
        Line {
            entries: entries.append(last),
            ..self
        }
    }

    // The line once its front entry is taken: the entry is off it, and where it was the last of its batch an ack is on the way back.
    pub(crate) fn taken(self, sent: Sent) -> Line
        requires entries_fit { self.entries.len ≤ 18 }
        requires acks_fit { self.acks.len < 9 }
        ensures { TakenOff self sent result }
    {
        let entries = self.entries.skip(1);
        if !sent.ends {
            return Line { entries, ..self };
        }
        let ack = Ack {
            term: sent.term,
            index: Index(sent.numbers[0]),
        };
        Line {
            entries,
            acks: self.acks.append(ack),
        }
    }

    // The line without its front ack.
    pub(crate) fn acked(self) -> Line
        requires { self.acks.len ≤ 9 }
        ensures { AckedOff self result }
    {
        Line {
            acks: self.acks.skip(1),
            ..self
        }
    }
}
