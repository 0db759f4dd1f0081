// Float 9/7 forward block by block, one level, and the approximations alone, once over f32 and f64.
#![tactic(auto)]

pub mod blocks;
