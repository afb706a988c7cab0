// The rules of the player: definitions in specs/, their laws in proofs/, and no code.
#![tactic(auto)]

// Which connection of a window: a count of its connections.
#[derive(Clone, Copy, Debug, PartialEq, Eq, PartialOrd, Ord)]
pub struct Term(pub u32);

// What a host chooses at a Start: the batch limit, the spacing of ticks, the first term and the set of silent windows,
// bit w for window w.
#[derive(Clone, Copy, Debug, PartialEq, Eq)]
pub struct Settings {
    pub limit: u32,
    pub spacing: u32,
    pub first: Term,
    pub silent: u32,
}
