// One step of a script: a call of the player, or of a window's record, and what it leaves for that window.
ghost use Rattle.std.specs.Prelude.{◌≡◌, replicate};
ghost use Rattle.script.specs.Stage.{window_of};
ghost use Rattle.script.specs.Stored.{index_after, Made};
ghost use Rattle.script.specs.Promise.{Plays};

use crate::settle::Settled;
use crate::slot::Slot;
use crate::{Reply, Stage, Stepped};
use journal::Index;
use player::{Played, Player};
use script_line::{Step, Verb};

// The window that a step names. Main names none and is played at place 0; no Option, since `window_of` of specs/Stage.antt is 0 there.
fn window_of(step: Step) -> u32
    ensures { result ≡ window_of step }
{
    match step {
        Step::Main => 0,
        Step::At(_, w) => w,
    }
}

// The index after this one, where there is one.
fn after(index: Index) -> Index
    ensures { result ≡ index_after index }
{
    Index(index.0.saturating_add(1))
}

// What the player makes of the call that a step is, and what is then in an output of ten zeros. Take asks nothing. A `match`: each step
// hands its call other parts of the slot.
fn called(player: Player, journal: &[u32], slot: &Slot, step: Step, out: &mut [u32; 10]) -> Played
    requires { out.old ≡ replicate 10 0 }
    ensures { Made journal.now player slot.now step result out.new }
{
    match step {
        Step::Main => operations::main_on(player, journal, after(player.current)),
        Step::At(Verb::Catch, w) => operations::catch_on(player, journal, w, slot.term, slot.due),
        Step::At(Verb::Send, w) => operations::send_on(player, journal, w, out),
        Step::At(Verb::Written, w) => operations::written_on(player, journal, w, slot.term),
        Step::At(Verb::Ack, w) => operations::ack_on(
            player,
            journal,
            w,
            slot.ack.term,
            slot.ack.index,
        ),
        Step::At(Verb::Drop, w) => operations::drop_on(player, journal, w),
        Step::At(Verb::Join, w) => operations::join_on(player, journal, w, slot.record.last),
        Step::At(Verb::Take, _) => Played {
            answer: Ok(()),
            player,
        },
    }
}

impl Stage {
    // One step of a script: Answered(1), with the stage as it was, where the journal is out of shape or the stage does not fit.
    pub fn step(mut self, journal: &[u32], step: Step) -> Stepped
        ensures { Plays journal.now self step result }
    {
        let at = window_of(step) as usize;
        let slot = self.slot(at);
        if let Some(reply) = slot.early(journal, self.player.count, step) {
            return Stepped { reply, stage: self };
        }
        let mut out = [0; 10];
        let played = called(self.player, journal, &slot, step, &mut out);
        if let Err(refusal) = played.answer {
            let reply = Reply::Answered(u32::from(refusal));
            return Stepped { reply, stage: self };
        }
        let settled = slot.settled(step, out);
        self.player = played.player;
        self.records[at] = settled.record;
        self.lines[at] = settled.line;
        Stepped {
            reply: settled.reply,
            stage: self,
        }
    }
}
