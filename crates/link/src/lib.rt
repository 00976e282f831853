// One direction of a board: a sender, a line and a receiver under one clock. This crate has no code: its proofs show what the three deliver.
#![tactic(auto)]
