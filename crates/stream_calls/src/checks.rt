// The checks of the two calls, in the order of documents 01 and 02.
ghost use Rattle.std.specs.Prelude.{Ok, ◌≡◌, ◌≤◌};
ghost use Rattle.base_answers.specs.Answers.{plain};
ghost use Rattle.base_answers.specs.Checks.{first_refusal, passes};
ghost use Rattle.stream_calls.specs.StateBytes.{state_in};
ghost use Rattle.stream_calls.specs.Calls.{lent_checks, band_checks, say_piece, say_finish};

use crate::state::{could_be, read};
use base_answers::err::Refusal;
use base_lengths::checks::check_whole;
use base_lengths::{MOST_SAMPLES, Wavelet, approx_length, details_length, smallest};
use base_samples::integers::Sample;
use stream_pieces::recorder::{Recorder, fixed};

// What both calls ask: whole lengths in bytes, of a piece and of the two areas, and a state that calls can have left, which is told.
#[tactic(auto, unfolding(crate::specs::StateBytes::could_be))]
fn check_lent<S: Sample>(b: &[u8], y: usize, a: usize, d: usize) -> Result<Recorder, Refusal>
    ensures { result ≡ first_refusal (lent_checks S.bytes b.now y a d) (Ok (state_in b.now)) }
{
    check_whole(S::bytes(), y, a, d)?;
    if !could_be::<S>(b) {
        return Err(Refusal::BadCount(0, 0));
    }
    Ok(read(b))
}

// The room for what comes after the first m of each band, up to so many of each.
fn check_bands(a: usize, d: usize, m: usize, lows: usize, highs: usize) -> Result<(), Refusal>
    requires { (m ≤ lows) × (m ≤ highs) }
    ensures { result ≡ passes (band_checks a d m lows highs) }
{
    if a < lows - m {
        return Err(Refusal::NoRoom(a, lows - m));
    }
    if d < highs - m {
        return Err(Refusal::NoRoom(d, highs - m));
    }
    Ok(())
}

// A piece of y bytes, and areas of a and d bytes.
#[tactic(auto, unfolding(crate::specs::Calls::say_piece))]
pub fn check_piece<S: Sample>(b: &[u8], y: usize, a: usize, d: usize) -> Result<(), Refusal>
    ensures { plain result ≡ say_piece S.bytes b.now y a d }
{
    let k = S::bytes();
    let t = check_lent::<S>(b, y, a, d)?.total as usize;
    let n = t.saturating_add(y / k);
    if MOST_SAMPLES < n {
        return Err(Refusal::TooLong);
    }
    check_bands(a / k, d / k, fixed(t), fixed(n), fixed(n))
}

// The end, with areas of a and d bytes.
#[tactic(auto, unfolding(crate::specs::Calls::say_finish))]
pub fn check_finish<S: Sample>(b: &[u8], a: usize, d: usize) -> Result<(), Refusal>
    ensures { plain result ≡ say_finish S.bytes b.now a d }
{
    let k = S::bytes();
    let t = check_lent::<S>(b, 0, a, d)?.total as usize;
    let least = smallest(Wavelet::Cdf53);
    if t < least {
        return Err(Refusal::MinFilterSize(t, least));
    }
    check_bands(a / k, d / k, fixed(t), approx_length(t), details_length(t))
}
