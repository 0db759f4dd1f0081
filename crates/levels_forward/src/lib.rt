// The levels down, written once over the filter: for `multi_dwt`'s output, and for the sections of a file. levels_filter has the definitions of the bands.
#![tactic(auto)]

pub mod bands;
pub mod levels;
