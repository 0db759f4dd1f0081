// What the desk asks of two bands: a stretch of one of them to draw.
#![tactic(auto)]

pub mod window;
