// The steps of float 5/3 and 9/7, once over f32 and f64. Ported from osclet's src/cdf97f.rs and src/mla.rs.
#![tactic(auto)]

mod mla;
pub mod steps;
