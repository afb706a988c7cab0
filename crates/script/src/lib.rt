// A run by script: the player, the windows' records and the lines between them, by value, and one step at a time.
#![tactic(auto)]

mod early;
mod line;
mod open;
mod play;
mod settle;
mod slot;

use line::Line;
use player::Player;
use record::Record;

// The player, and the record and the line of each window. Those from the number of windows up are no part of it. Records and lines stay
// two arrays, since `world_of` and `SameAbove` read them as two lists.
#[derive(Clone, Copy)]
pub struct Stage {
    pub player: Player,
    pub records: [Record; 16],
    pub lines: [Line; 16],
}

// What a step answers: the papers' number, or that a Take or an Ack found its line empty. No Option: Empty is an answer, which is
// printed as such, and the name says what None would not. By the papers' number: record and window refuse by two enums.
#[derive(Clone, Copy, Debug, PartialEq, Eq)]
pub enum Reply {
    Answered(u32),
    Empty,
}

// A reply beside the stage as it then is: a step gives back a stage whatever it answers.
#[derive(Clone, Copy)]
pub struct Stepped {
    pub stage: Stage,
    pub reply: Reply,
}

// Whether a stage was opened, and the stage. No Option: `opened_by` says what stage there is where Start is refused, too.
#[derive(Clone, Copy)]
pub struct Opened {
    pub stage: Stage,
    pub ok: bool,
}
