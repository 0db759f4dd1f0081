// A stretch of one of two lent bands: the part itself, or where it stands. Document 01, "The pyramid file".
ghost use Rattle.std.specs.Prelude.{◌≡◌, ◌<◌, length};
ghost use Rattle.base_answers.specs.Checks.{passes};
ghost use Rattle.view_windows.specs.Windows.{bytes_each, band_of, stretch_checks, say_window, window_in, window_at};

use base_answers::err::{Outcome, Refusal};
use base_lengths::checks::check_one;

// How many bytes a sample has. An enum, so that no caller can ask for a width of 0.
#[derive(Clone, Copy)]
pub enum SampleWidth {
    One,
    Two,
    Four,
    Eight,
}

fn bytes_each(w: SampleWidth) -> usize
    ensures { (result ≡ bytes_each w) × (0 < result) }
{
    match w {
        SampleWidth::One => 1,
        SampleWidth::Two => 2,
        SampleWidth::Four => 4,
        SampleWidth::Eight => 8,
    }
}

// Of two bands, the one that was asked for by C's number: 0 is the approximations, any other the details.
fn asked<'a>(band: u32, approx: &'a [u8], details: &'a [u8]) -> &'a [u8]
    ensures { result ≡ band_of band approx.entry details.entry }
{
    if band == 0 { approx } else { details }
}

// So many samples from a start, of m samples: start + count may not fit, so that it is never formed.
fn check_stretch(m: usize, start: usize, count: usize) -> Result<(), Refusal>
    ensures { result ≡ passes (stretch_checks m start count) }
{
    if count == 0 || m < count || m - count < start {
        return Err(Refusal::NoSuchPlace(start, m));
    }
    Ok(())
}

// Where the window starts in its band, and how long it is, in bytes.
#[tactic(auto, unfolding(crate::specs::Windows::say_window))]
pub fn band_window_place(
    w: SampleWidth,
    approx: &[u8],
    details: &[u8],
    band: u32,
    start: usize,
    count: usize,
) -> Outcome
    ensures { result ≡ say_window (bytes_each w) (length approx.now) (length details.now) band start count }
{
    let k = bytes_each(w);
    check_one(k, approx.len())?;
    check_one(k, details.len())?;
    check_stretch(asked(band, approx, details).len() / k, start, count)?;
    Ok((k * start, k * count))
}

// The window itself: a part of the band that was asked for, or an empty part.
#[tactic(auto, using(crate::proofs::Windows::done_at), unfolding(crate::specs::Windows::window_in, crate::specs::Windows::window_at))]
pub fn band_window<'a>(
    w: SampleWidth,
    approx: &'a [u8],
    details: &'a [u8],
    band: u32,
    start: usize,
    count: usize,
) -> &'a [u8]
    ensures result_value { result.now ≡ window_in (bytes_each w) approx.now details.now band start count }
    ensures ref_ptr_value { result.ref_ptr ≡ window_at (bytes_each w) approx.entry details.entry band start count }
{
    let s = asked(band, approx, details);
    match band_window_place(w, approx, details, band, start, count) {
        Ok((from, size)) => &s[from..from + size],
        Err(_) => &s[0..0],
    }
}
