// One law about numbers that every crate's proofs use, and no code.

#![tactic(auto)]
