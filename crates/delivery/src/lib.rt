// What holds of every list of steps. The crate has definitions and a theorem, and no code.
#![tactic(auto)]
