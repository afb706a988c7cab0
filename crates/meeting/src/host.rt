// A host: round after round it has entries read and serves the windows, until the journal is read or a call is refused.
ghost use Rattle.std.specs.Prelude.{◌<◌, ◌≤◌};

use crate::tally::Tally;
use journal::Index;
use player::{Played, Player};
use record::Record;
use rules::{Settings, Term};
use window::{Condition, Refusal};

// More turns than serving a window takes: a number that no run comes to. No plainer: a proved loop has to end.
const TURNS: u64 = u64::MAX;

// The spacing of ticks: a window that has no entry of its own for so long gets a tick, so that a start does not begin
// far back.
const SPACING: u32 = 1000;

// The first term. The player is started once, so no term was used before.
const FIRST: Term = Term(1);

// The journal and how many entries it has, the player, a record for each window, and what the host counts.
#[derive(Drop)]
pub(crate) struct Host<'a> {
    pub(crate) journal: &'a [u32],
    entries: u32,
    pub(crate) player: Player,
    pub(crate) records: [Record; 16],
    pub(crate) tally: Tally,
}

impl<'a> Host<'a> {
    // A host whose player is started with so many new windows.
    pub(crate) fn start(journal: &'a [u32], entries: u32, windows: u32, limit: u32) -> Host<'a>
        requires { windows ≤ 16 }
    {
        let settings = Settings {
            limit,
            spacing: SPACING,
            first: FIRST,
            silent: 0,
        };
        let reports = [0; 16];
        let started = operations::start_on(
            Player::blank(),
            journal,
            windows,
            settings,
            &reports[..windows as usize],
        );
        let mut tally = Tally::default();
        tally.called(started.answer.err());
        Host {
            journal,
            entries,
            player: started.player,
            records: [Record::NEW; 16],
            tally,
        }
    }

    // Keeps what a call has left of the player, and counts the call.
    pub(crate) fn played(&mut self, played: Played) {
        self.player = played.player;
        self.tally.called(played.answer.err());
    }

    // Has the main stream read on, by at most the limit.
    fn read(&mut self) {
        for _ in 0..self.player.limit {
            let current = self.player.current.0;
            if self.entries <= current || self.tally.refused.is_some() {
                break;
            }
            self.played(operations::main_on(self.player, self.journal, Index(current + 1)));
        }
    }

    // Serves window w: sends it batches and fetches what it missed, until nothing is ready and nothing is left to
    // fetch. That there is a place for it, `serve_all` has found: a type for such a window would serve these calls alone.
    fn serve(&mut self, w: u32)
        requires { w < 16 }
    {
        let mut output = [0; 160];
        for _ in 0..TURNS {
            let sent = operations::send_on(self.player, self.journal, w, &mut output);
            self.player = sent.player;
            self.tally.sent(sent.answer);
            let head = self.player.windows[w as usize].head;
            if sent.answer == Err(Refusal::NothingReady) {
                let Condition::Fetching { next, .. } = head.condition else {
                    break;
                };
                self.played(operations::catch_on(self.player, self.journal, w, head.term, next));
            } else if self.tally.refused.is_some() {
                break;
            } else if self.tally.drops() {
                self.lose(w, &output);
            } else {
                self.deliver(w, head, &output);
            }
        }
    }

    // Serves each window once.
    fn serve_all(&mut self) {
        for w in 0..self.player.count.min(16) {
            if self.tally.refused.is_some() {
                break;
            }
            self.serve(w);
        }
    }

    // Plays one round after another until the journal is read or a call is refused. Each reads an entry at least, so
    // there are no more than entries.
    pub(crate) fn play(&mut self) {
        for _ in 0..self.entries {
            if self.player.current.0 == self.entries || self.tally.refused.is_some() {
                break;
            }
            self.read();
            self.serve_all();
        }
    }
}
