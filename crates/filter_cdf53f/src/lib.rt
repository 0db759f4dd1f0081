// Float 5/3 block by block, one level: forward, the approximations alone, and back. Once over f32 and f64.
#![tactic(auto)]

pub mod blocks;
mod steps;
