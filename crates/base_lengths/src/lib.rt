// How many samples and coefficients there are: limits, bands, levels, depth, and the checks of one level. Document 01, "Many levels".
#![tactic(auto)]

pub mod checks;

ghost use Rattle.std.specs.Prelude.{◌≡◌};
ghost use Rattle.base_lengths.specs.Lengths.{approx_length, details_length, smallest_of, least_details, expected_approx, expected_details};
ghost use Rattle.base_lengths.specs.Levels.{count_at, depth_of, say_depth, levels_of};

use base_answers::err::{Outcome, Refusal};

// The most samples of a recording.
pub const MOST_SAMPLES: usize = 16777216;

// The two wavelets: they differ in the smallest input and in the fewest details of an inverse.
#[derive(Clone, Copy)]
pub enum Wavelet {
    Cdf53,
    Cdf97,
}

// The lengths of the two bands.
#[derive(Clone, Copy)]
pub struct DwtSize {
    pub approx: usize,
    pub details: usize,
}

// How many approximations n samples have.
pub fn approx_length(n: usize) -> usize
    ensures { result ≡ approx_length n }
{
    n.div_ceil(2)
}

// How many details n samples have.
pub fn details_length(n: usize) -> usize
    ensures { result ≡ details_length n }
{
    n / 2
}

// The fewest samples that one level takes.
pub fn smallest(w: Wavelet) -> usize
    ensures { result ≡ smallest_of w }
{
    match w {
        Wavelet::Cdf53 => 3,
        Wavelet::Cdf97 => 4,
    }
}

fn least_details(w: Wavelet) -> usize
    ensures { result ≡ least_details w }
{
    match w {
        Wavelet::Cdf53 => 1,
        Wavelet::Cdf97 => 2,
    }
}

// The lengths that an inverse to n samples expects of its two bands.
pub fn dwt_size(w: Wavelet, n: usize) -> DwtSize
    ensures { (result.approx ≡ expected_approx n) × (result.details ≡ expected_details w n) }
{
    DwtSize {
        approx: approx_length(n).max(2),
        details: details_length(n).max(least_details(w)),
    }
}

// Zero levels means one.
pub fn at_least_one(levels: usize) -> usize
    ensures { result ≡ levels_of levels }
{
    levels.max(1)
}

// How many approximations n samples have after so many levels.
pub fn count_at(levels: usize, n: usize) -> usize
    ensures { result ≡ count_at levels n }
{
    let mut count = n;
    for _level in 0..levels {
        count = approx_length(count);
    }
    count
}

// The depth by a loop, one turn a level, as the definition has it: only 9/7 is asked of it.
fn halvings(w: Wavelet, n: usize) -> usize
    ensures { result ≡ depth_of w n }
{
    let m = smallest(w);
    let mut left = n;
    let mut levels: usize = 0;
    while m <= left {
        left = approx_length(left);
        levels += 1;
    }
    levels
}

// The 5/3 depth without a loop: it is k for 2^k < n <= 2^(k+1), and n - 1 then has k + 1 binary digits.
fn depth53(n: usize) -> usize
    ensures { result ≡ depth_of Wavelet.Cdf53 n }
{
    if n < 2 {
        0
    } else {
        63 - (n - 1).leading_zeros() as usize
    }
}

// How many levels run on n samples before an input is too short.
pub fn depth(w: Wavelet, n: usize) -> usize
    ensures { result ≡ depth_of w n }
{
    match w {
        Wavelet::Cdf53 => depth53(n),
        Wavelet::Cdf97 => halvings(w, n),
    }
}

// The depth as the desk asks for it: refused only for a length over the limit.
pub fn ask_depth(w: Wavelet, n: usize) -> Outcome
    ensures { result ≡ say_depth w n }
{
    if MOST_SAMPLES < n {
        return Err(Refusal::TooLong);
    }
    Ok((depth(w, n), 0))
}
