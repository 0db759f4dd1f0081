// The last of many levels alone, written once over the filter; levels_filter has the definitions and the laws.
#![tactic(auto)]

pub mod last;
