// Small floats: the look through a part of a slice, and reading and writing without a test for NaN where it found nothing large; and the three lifting steps of a block of 9/7. Once over f32 and f64.
#![tactic(auto)]

pub mod lift;
pub mod look;
pub mod rows;
