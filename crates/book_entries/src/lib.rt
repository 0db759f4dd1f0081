// What the area of a route book holds: its directory, read entry by entry, and the checks that its calls make first. The calls are in book_calls.
#![tactic(auto)]

pub mod checks;
pub mod directory;
