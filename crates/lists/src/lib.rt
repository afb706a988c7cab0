// Lists and tests: definitions and laws in specs/ that several crates share, and no code.
#![tactic(auto)]
