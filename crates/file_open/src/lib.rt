// The pyramid file: its head and its size, opening, and looking a section up; file_write has the writing, by the definitions and laws here. Document 01, "The pyramid file".
#![tactic(auto)]

pub mod head;
pub mod open;
pub mod restore;
pub mod section;
pub mod size;
pub mod walk;

// The most bytes of a pyramid file.
pub const MOST_BYTES: usize = 67108978;
