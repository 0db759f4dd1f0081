// What every call says: done, or the first check that refused, as documents 01 and 02 number them.
#![tactic(auto)]

pub mod err;
