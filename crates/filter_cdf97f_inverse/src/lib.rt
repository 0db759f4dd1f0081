// Float 9/7 back block by block, one level, once over f32 and f64.
#![tactic(auto)]

pub mod blocks;
