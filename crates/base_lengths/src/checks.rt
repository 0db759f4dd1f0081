// The checks of one level, on byte lengths, for every filter. Document 01, "Order of checks", and document 02, C-16.
ghost use Rattle.std.specs.Prelude.{◌≡◌, [], ◌∷◌, ◌<◌};
ghost use Rattle.base_answers.specs.Answers.{plain};
ghost use Rattle.base_answers.specs.Checks.{passes, ragged, two_areas};
ghost use Rattle.base_lengths.specs.Calls.{forward_bands, inverse_bands, forward_checks, inverse_checks, say_forward, say_inverse};

use crate::{MOST_SAMPLES, Wavelet, approx_length, details_length, dwt_size, smallest};
use base_answers::err::Refusal;

// A byte length, a whole number of samples of k bytes. k is never 0, and no type says it: docs/EXCEPTIONS.md names the checks, which may not ask more.
pub fn check_one(k: usize, x: usize) -> Result<(), Refusal>
    requires { 0 < k }
    ensures { result ≡ passes (ragged k x ∷ []) }
{
    if x % k != 0 {
        return Err(Refusal::BadCount(0, x));
    }
    Ok(())
}

// Three of them.
pub fn check_whole(k: usize, x: usize, y: usize, z: usize) -> Result<(), Refusal>
    requires { 0 < k }
    ensures { result ≡ passes (ragged k x ∷ ragged k y ∷ ragged k z ∷ []) }
{
    check_one(k, x)?;
    check_one(k, y)?;
    check_one(k, z)
}

// Two work areas against what is needed of each.
pub fn two_areas(u: usize, v: usize, need: usize) -> Result<(), Refusal>
    ensures { result ≡ passes (two_areas u v need) }
{
    if u < need {
        return Err(Refusal::NoRoom(u, need));
    }
    if v < need {
        return Err(Refusal::NoRoom(v, need));
    }
    Ok(())
}

// The lent bands of a forward level of n samples.
pub fn forward_bands(n: usize, a: usize, d: usize) -> Result<(), Refusal>
    ensures { result ≡ passes (forward_bands n a d) }
{
    if a != approx_length(n) {
        return Err(Refusal::ApproxSizeNotMatches(a, n));
    }
    if d != details_length(n) {
        return Err(Refusal::DetailsSizeNotMatches(d, n));
    }
    Ok(())
}

// The bands of an inverse level to n samples.
pub fn inverse_bands(w: Wavelet, n: usize, a: usize, d: usize) -> Result<(), Refusal>
    ensures { result ≡ passes (inverse_bands w n a d) }
{
    let size = dwt_size(w, n);
    if a != size.approx {
        return Err(Refusal::ApproxSizeNotMatches(size.approx, a));
    }
    if d != size.details {
        return Err(Refusal::DetailsSizeNotMatches(size.details, d));
    }
    Ok(())
}

// Forward by samples: n of the input, a and d of the lent bands.
fn forward_lengths(w: Wavelet, n: usize, a: usize, d: usize) -> Result<(), Refusal>
    ensures { result ≡ passes (forward_checks w n a d) }
{
    if MOST_SAMPLES < n {
        return Err(Refusal::TooLong);
    }
    let least = smallest(w);
    if n < least {
        return Err(Refusal::MinFilterSize(n, least));
    }
    forward_bands(n, a, d)
}

// Inverse by samples: a and d of the bands, n of the lent output.
fn inverse_lengths(w: Wavelet, a: usize, d: usize, n: usize) -> Result<(), Refusal>
    ensures { result ≡ passes (inverse_checks w a d n) }
{
    if MOST_SAMPLES < a || MOST_SAMPLES < d || MOST_SAMPLES < n {
        return Err(Refusal::TooLong);
    }
    let sum = a + d;
    if n != sum {
        return Err(Refusal::OutputSizeIsNotValid(n, sum));
    }
    inverse_bands(w, n, a, d)
}

// What a forward call says, by byte lengths.
#[tactic(auto, unfolding(crate::specs::Calls::say_forward))]
pub fn check_forward(
    w: Wavelet,
    k: usize,
    input: usize,
    approx: usize,
    details: usize,
) -> Result<(), Refusal>
    requires { 0 < k }
    ensures { plain result ≡ say_forward w k input approx details }
{
    check_whole(k, input, approx, details)?;
    forward_lengths(w, input / k, approx / k, details / k)
}

// What an inverse call says, by byte lengths.
#[tactic(auto, unfolding(crate::specs::Calls::say_inverse))]
pub fn check_inverse(
    w: Wavelet,
    k: usize,
    approx: usize,
    details: usize,
    output: usize,
) -> Result<(), Refusal>
    requires { 0 < k }
    ensures { plain result ≡ say_inverse w k approx details output }
{
    check_whole(k, approx, details, output)?;
    inverse_lengths(w, approx / k, details / k, output / k)
}
