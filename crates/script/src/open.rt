// The beginning of a run: a first Start, on new records and empty lines.
ghost use Rattle.std.specs.Prelude.{◌≡◌};
ghost use Rattle.script.specs.Opening.{opened_by};

use crate::line::Line;
use crate::{Opened, Stage};
use player::Player;
use record::Record;
use rules::{Settings, Term};

impl Stage {
    // A stage after a first Start with so many windows, none of them silent, the batch limit 2, the spacing 65,535, the
    // first term 1 and a report of 0 from each; not opened, and with a blank player, where that is refused.
    pub fn open(journal: &[u32], count: u32) -> Opened
        ensures { result ≡ opened_by journal.now count }
    {
        let player = Player::blank();
        let blank = Stage {
            player,
            records: [Record::new(); 16],
            lines: [Line::new(); 16],
        };
        if 16 < count {
            return Opened {
                ok: false,
                stage: blank,
            };
        }
        let settings = Settings {
            limit: 2,
            spacing: 65535,
            first: Term(1),
            silent: 0,
        };
        let reports = [0; 16];
        let played = operations::start_on(
            player,
            journal,
            count,
            settings,
            &reports[..count as usize],
        );
        Opened {
            ok: played.answer.is_ok(),
            stage: Stage {
                player: played.player,
                ..blank
            },
        }
    }
}
