// What a step is answered before the player is asked.
ghost use Rattle.std.specs.Prelude.{◌≡◌};
ghost use Rattle.script.specs.Stored.{has_room, lacks, early_at};

use crate::Reply;
use crate::slot::Slot;
use script_line::{Step, Verb};

impl Slot {
    // Whether the line has at most 16 entries and 8 acks.
    fn has_room(self) -> bool
        ensures { result ≡ has_room self }
    {
        self.line.entries.len <= 16 && self.line.acks.len <= 8
    }

    // Whether a step is a Take or an Ack for which there is nothing on the line.
    fn lacks(self, step: Step) -> bool
        ensures { result ≡ lacks self step }
    {
        match step {
            Step::At(Verb::Ack, _) => self.line.acks.len == 0,
            Step::At(Verb::Take, _) => self.line.entries.len == 0,
            _ => false,
        }
    }

    // 1 where the journal is out of shape or the stage does not fit; where there is nothing on the line, that it is empty, or that there is
    // no such window; and nothing where the step goes on.
    pub(crate) fn early(self, journal: &[u32], count: u32, step: Step) -> Option<Reply>
        ensures { result ≡ early_at journal.now count self step }
    {
        if !journal::in_shape(journal) || 16 < count || !self.has_room() {
            return Some(Reply::Answered(1));
        }
        if !self.lacks(step) {
            return None;
        }
        Some(if self.there {
            Reply::Empty
        } else {
            Reply::Answered(2)
        })
    }
}
