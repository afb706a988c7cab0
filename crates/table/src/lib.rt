// The proved table of document 01. The crate has one theorem about the rules, and no code.
#![tactic(auto)]
