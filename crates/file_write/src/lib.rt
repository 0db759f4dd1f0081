// Writing a pyramid file; file_open has the definitions and the laws.
#![tactic(auto)]

pub mod write;
