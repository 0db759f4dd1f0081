// What is kept between two pieces of a recording, as numbers, and the coefficients of one level of integer 5/3 that read it: the first that a piece fixes, and what the end writes. stream_calls has the others and the calls. Document 02, C-15.
#![tactic(auto)]

pub mod borders;
pub mod recorder;
