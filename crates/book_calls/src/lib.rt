// The route book: whole pyramid files in one lent area, found by point number. Its directory and the checks of its calls are in book_entries.
#![tactic(auto)]

pub mod calls;
