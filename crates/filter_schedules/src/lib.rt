// Float 5/3 and 9/7 as schedules of steps, one level, both ways, once over f32 and f64. Ported from osclet's src/cdf53f.rs and src/cdf97f.rs.
#![tactic(auto)]

pub mod cdf53f;
pub mod cdf97f;
