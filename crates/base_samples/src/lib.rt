// Samples in byte slices: numbers of 1, 2, 4 and 8 bytes, little-endian; two's complement integers by their words; floats by their bits.
#![tactic(auto)]

pub mod floats;
pub mod integers;
pub mod le;
