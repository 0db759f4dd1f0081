// Which samples a coefficient of the integer 5/3 transform depends on, as definitions and laws; `view_notes` has the code that answers. Document 02, C-13.

// The two bands of a level.
#![tactic(auto)]

#[derive(Clone, Copy)]
pub enum Band {
    Approx,
    Details,
}
