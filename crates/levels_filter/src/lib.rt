// The filters as one, and what the drivers of many levels share. Ported from the macros of osclet's src/cdf53i.rs and src/cdf53f.rs.
#![tactic(auto)]

pub mod filter;
pub mod levels;
