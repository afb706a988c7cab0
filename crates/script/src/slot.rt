// What a stage has for one window.
ghost use Rattle.std.specs.Prelude.{◌≤◌, ◌≡◌};
ghost use Rattle.window.specs.View.{condition_of};
ghost use Rattle.script.specs.Stage.{due_in};
ghost use Rattle.script.specs.Stored.{absent, slot_in};

use crate::Stage;
use crate::line::{Ack, Line};
use journal::Index;
use queue::Item;
use record::Record;
use rules::Term;
use window::Condition;

// Whether a window is one of the player's, its term and the index due there, its record, its line, and the front ack of the line.
// No Option: a step at a window that is not there is asked of the player all the same, with these values, which refuses it.
#[derive(Clone, Copy)]
pub struct Slot {
    pub there: bool,
    pub term: Term,
    pub due: Index,
    pub record: Record,
    pub line: Line,
    pub ack: Ack,
}

// The index due in a condition: the next one of Fetching, and 0 in any other.
// 0 and no Option: `due_in` of specs/Stage.antt is 0 there.
fn due_in(condition: Condition) -> Index
    ensures { result ≡ record { 0 = due_in (condition_of condition) } }
{
    match condition {
        Condition::Fetching { next, end: _ } => next,
        _ => Index(0),
    }
}

impl Slot {
    // For a window that is not there: a new record and an empty line.
    fn none() -> Slot
        ensures { result ≡ absent }
    {
        Slot {
            there: false,
            term: Term(0),
            due: Index(0),
            record: Record::new(),
            line: Line::new(),
            ack: Ack::NONE,
        }
    }
}

impl Stage {
    // For a window of the stage.
    pub(crate) fn slot(&self, at: usize) -> Slot
        ensures { self.now.player.count ≤ 16 → result ≡ slot_in at self.now }
    {
        if self.player.count as usize <= at || 16 <= at {
            return Slot::none();
        }
        let head = self.player.windows[at].head;
        let line = self.lines[at];
        Slot {
            there: true,
            term: head.term,
            due: due_in(head.condition),
            record: self.records[at],
            line,
            ack: line.acks.first(),
        }
    }
}
