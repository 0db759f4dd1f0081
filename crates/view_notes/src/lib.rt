// What the desk asks of a drawn recording: where a note shows, and what a coefficient spans.
#![tactic(auto)]

pub mod notes;
