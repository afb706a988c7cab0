// Demand 3 of the calls: what holds of every list of calls as a host makes them. The crate has definitions and a theorem, and no code.
#![tactic(auto)]
