// What a step leaves for its window, once its call is answered 0.
ghost use Rattle.std.specs.Prelude.{◌≤◌, ◌≡◌};
ghost use Rattle.script.specs.Stored.{Takes, Settles};

use crate::Reply;
use crate::line::Line;
use crate::slot::Slot;
use record::Record;
use script_line::{Step, Verb};

// A reply, and the window's record and line as they then are.
#[derive(Clone, Copy)]
pub struct Settled {
    pub reply: Reply,
    pub record: Record,
    pub line: Line,
}

impl Slot {
    // Take of the front entry, which goes off the line; the last of a batch puts an ack on the way back.
    fn taken(self) -> Settled
        requires { (self.line.entries.len ≤ 16) × (self.line.acks.len ≤ 8) }
        ensures { Takes self result }
    {
        let sent = self.line.entries.first();
        let taken = record::take_by_value(self.record, &sent.numbers);
        Settled {
            reply: Reply::Answered(record::number(&taken)),
            record: taken.unwrap_or(self.record),
            line: self.line.taken(sent),
        }
    }

    // What a step leaves whose call is answered 0: Send puts the batch that it wrote on the line, Ack takes its ack off it, Join empties
    // it, and Take takes the front entry.
    pub(crate) fn settled(self, step: Step, out: [u32; 10]) -> Settled
        requires { (self.line.entries.len ≤ 16) × (self.line.acks.len ≤ 8) }
        ensures { Settles self step out result }
    {
        let line = match step {
            Step::At(Verb::Send, _) => self.line.loaded(out, self.term),
            Step::At(Verb::Ack, _) => self.line.acked(),
            Step::At(Verb::Join, _) => Line::new(),
            Step::At(Verb::Take, _) => return self.taken(),
            _ => self.line,
        };
        Settled {
            reply: Reply::Answered(0),
            record: self.record,
            line,
        }
    }
}
