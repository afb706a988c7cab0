// States made by hand.
use crate::windows;
use journal::Index;
use player::Player;
use queue::Row;
use rules::Term;
use window::Window;

// Numbers of any size that a call is lent: those of a journal, or reports.
type Numbers = Row<u32, 128>;

// The player, the numbers of the journal, the reports and the first term for Start, and the place of the window that
// letters change.
#[derive(Clone, Copy)]
pub(crate) struct State {
    pub(crate) player: Player,
    pub(crate) journal: Numbers,
    pub(crate) reports: Numbers,
    pub(crate) first: Term,
    pub(crate) place: usize,
}

// A player's window in a place, counted round from 16 on.
pub(crate) fn window_of(player: Player, place: usize) -> Window {
    player.windows[place % 16]
}

impl State {
    // Two idle windows, the batch limit 2, the spacing 65,535 and `current` 4, over no journal yet.
    pub(crate) fn new() -> State {
        State {
            player: Player {
                count: 2,
                limit: 2,
                spacing: 65535,
                current: Index(4),
                windows: [windows::idle(); 16],
            },
            journal: Numbers::new(),
            reports: Numbers::new(),
            first: Term(1),
            place: 0,
        }
    }

    // The window that letters change.
    pub(crate) fn window(self) -> Window {
        window_of(self.player, self.place)
    }

    // The player with another window in the place of that one.
    pub(crate) fn put(self, window: Window) -> Player {
        let mut player = self.player;
        player.windows[self.place % 16] = window;
        player
    }

    // The player that a letter makes of the state's.
    fn player(self, numbers: [u32; 4], letter: u8) -> Player {
        let [_, b, c, d] = numbers;
        match letter {
            b'o' => Player {
                count: b,
                limit: c,
                current: Index(d),
                ..self.player
            },
            b'x' => Player {
                spacing: d,
                ..self.player
            },
            b'i' => Player {
                windows: [self.window(); 16],
                ..self.player
            },
            _ => self.put(windows::set(self.window(), numbers, letter)),
        }
    }

    // The state that a letter makes of this one.
    pub(crate) fn set(self, numbers: [u32; 4], letter: u8) -> State {
        let [a, b, c, d] = numbers;
        match letter {
            b'v' => State {
                journal: self.journal.push(a).push(b).push(c).push(d),
                ..self
            },
            b'j' => State {
                journal: Numbers {
                    len: d as usize,
                    ..self.journal
                },
                ..self
            },
            b'r' => State {
                reports: self.reports.push(d),
                ..self
            },
            b'y' => State {
                first: Term(d),
                ..self
            },
            b't' => State {
                place: d as usize,
                ..self
            },
            _ => State {
                player: self.player(numbers, letter),
                ..self
            },
        }
    }
}
