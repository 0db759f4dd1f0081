// Integer 5/3, one level, both ways, on samples in bytes: one code for 8, 16 and 32 bits. Ported from osclet's src/cdf53i.rs.
#![tactic(auto)]

pub mod cdf53i;
pub mod steps;
