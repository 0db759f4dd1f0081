// What is kept of a recording between two pieces, as numbers; how many coefficients are fixed, and how many samples wait.
ghost use Rattle.std.specs.Prelude.{◌≡◌};
ghost use Rattle.stream_pieces.specs.States;

// How many samples came, the words of the two that wait, and the word of the last detail that was written.
#[derive(Clone, Copy)]
pub struct Recorder {
    pub total: u32,
    pub even: u32,
    pub odd: u32,
    pub detail: u32,
}

// How many coefficients of each band t samples fix.
pub fn fixed(t: usize) -> usize
    ensures { result ≡ States.fixed t }
{
    t.saturating_sub(1) / 2
}

// How many of the t samples wait for the next.
pub fn waiting(t: usize) -> usize
    ensures { result ≡ States.waiting t }
{
    t - 2 * fixed(t)
}
