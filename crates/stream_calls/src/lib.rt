// Samples while the crew records: one level of integer 5/3, piece by piece. The calls, their checks, the state as 16 bytes, and all that a piece fixes; stream_pieces has the coefficients that read what is kept. Document 02, C-15.
#![tactic(auto)]

pub mod bands;
pub mod calls;
pub mod checks;
pub mod state;
