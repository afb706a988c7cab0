// The player's state: the windows that it holds, up to sixteen, its shape, and a blank one.
#![tactic(auto)]

mod shape;

ghost use Rattle.std.specs.Prelude.{◌≡◌};
ghost use Rattle.player.specs.Promise.{blank_player};

use journal::Index;
use rules::Term;
pub use shape::count_fits;
use window::{Answer, Window};

// The player: the number of windows, the batch limit, the spacing of ticks, the last index read by the main stream, and
// the windows. Those from the number of windows up are no part of the state.
// An array with a count: no heap, and `first_windows` reads it so.
#[derive(Clone, Copy)]
pub struct Player {
    pub count: u32,
    pub limit: u32,
    pub spacing: u32,
    pub current: Index,
    pub windows: [Window; 16],
}

// An answer beside the player as it then is. The player stands beside a refusal too, since it is promised then
// (`Meets.unchanged`), and a must-fail edit has every refusal change it.
#[derive(Clone, Copy)]
pub struct Played {
    pub player: Player,
    pub answer: Answer,
}

impl Player {
    // What a host hands to its first Start, which reads nothing of it. It has no windows, so every other operation is
    // answered 1.
    pub fn blank() -> Player
        ensures { result ≡ blank_player }
    {
        Player {
            count: 0,
            limit: 0,
            spacing: 0,
            current: Index(0),
            windows: [Window::silent(Term(0), Index(0)); 16],
        }
    }
}
