// The exported functions and nothing else: the desk, in C, calls these. include/beksanour.h is their manual.
// In every call x is the samples, a approximations, d details, out the output, one and two the work areas; y is a piece of a recording, and state its 16 bytes.
#![tactic(auto)]

pub mod book;
pub mod files;
pub mod notes;
pub mod stream;
pub mod transforms;
