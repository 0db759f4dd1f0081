// `multi_idwt`: the levels back, from the deepest, written once over the filter. Ported from the macros of osclet's src/cdf53i.rs and src/cdf53f.rs.
ghost use Rattle.std.specs.Prelude.{[], ◌∷◌, ◌++◌, ◌≡◌, ◌+◌, ◌*◌, ◌/◌, ◌<◌, ◌≤◌, ◌^◌, length, take, drop};
ghost use Rattle.base_answers.specs.Answers.{answer_of, plain};
ghost use Rattle.base_answers.specs.Checks.{passes};
ghost use Rattle.base_lengths.specs.Calls.{Level};
ghost use Rattle.base_samples.specs.Words.{words_of};
ghost use Rattle.levels_filter.specs.Filters.{width_of, wavelet_of, back_of};
ghost use Rattle.levels_filter.specs.Pyramids.{samples_of};
ghost use Rattle.levels_filter.specs.Backward.{most_levels, total, size_checks, sum_check, band_checks, back_checks, say_back, MultiBack, Rising};

use base_answers::err::Refusal;
use base_lengths::checks::{check_one, check_whole, inverse_bands};
use base_lengths::{MOST_SAMPLES, Wavelet};
use base_samples::le::read_u32;
use levels_filter::filter::{Filter, bytes_of, inverse, wavelet, width};
use levels_filter::levels::check_room;

// The most levels: the depth of the most samples.
pub const MOST_LEVELS: usize = 23;

// What the lengths add up to.
fn total_of(lengths: &[u8]) -> usize
    requires { length lengths.now / 4 ≤ most_levels }
    ensures { result ≡ total (words_of 4 lengths.now) }
{
    let mut sum = 0;
    for word in lengths.chunks_exact(4) {
        sum += read_u32(word, 0) as usize;
    }
    sum
}

// The lengths against the d details.
fn check_sum(lengths: &[u8], d: usize) -> Result<(), Refusal>
    requires { length lengths.now / 4 ≤ most_levels }
    ensures { result ≡ passes (sum_check d (words_of 4 lengths.now) ∷ []) }
{
    let sum = total_of(lengths);
    if sum != d {
        return Err(Refusal::BadCount(0, sum));
    }
    Ok(())
}

// The limits, and that there are approximations and lengths: a and d of the bands, count lengths, n of the output.
fn back_sizes(a: usize, d: usize, count: usize, n: usize) -> Result<(), Refusal>
    ensures { result ≡ passes (size_checks a d count n) }
{
    if MOST_SAMPLES < n || MOST_SAMPLES < a || MOST_SAMPLES < d || MOST_LEVELS < count {
        return Err(Refusal::TooLong);
    }
    if count == 0 || a == 0 {
        return Err(Refusal::ZeroedBaseSize);
    }
    Ok(())
}

// All levels, from the deepest: what one restores is the next one's approximations.
fn band_lengths(w: Wavelet, a: usize, lengths: &[u8]) -> Result<(), Refusal>
    requires { a + total (words_of 4 lengths.now) < 2 ^ 63 }
    ensures { result ≡ passes (band_checks w a (words_of 4 lengths.now)) }
{
    let mut n = a;
    for word in lengths.chunks_exact(4) {
        let m = read_u32(word, 0) as usize;
        inverse_bands(w, n + m, n, m)?;
        n += m;
    }
    Ok(())
}

// By samples: a and d of the bands, n of the output, u and v of the work areas.
#[tactic(auto, using(crate::proofs::Parts::back_parts))]
fn back_lengths(
    f: Filter,
    a: usize,
    d: usize,
    lengths: &[u8],
    n: usize,
    u: usize,
    v: usize,
) -> Result<(), Refusal>
    ensures { result ≡ passes (back_checks f a d (words_of 4 lengths.now) n u v) }
{
    back_sizes(a, d, lengths.len() / 4, n)?;
    check_sum(lengths, d)?;
    band_lengths(wavelet(f), a, lengths)?;
    check_room(a + d, n, u, v)
}

// What `multi_idwt` says, by byte lengths.
#[tactic(auto, using(crate::proofs::Parts::said_parts))]
fn check_back(
    f: Filter,
    a: usize,
    d: usize,
    lengths: &[u8],
    out: usize,
    one: usize,
    two: usize,
) -> Result<(), Refusal>
    ensures { plain result ≡ say_back f a d lengths.now out one two }
{
    let k = width(f);
    check_one(k, a)?;
    check_one(k, d)?;
    check_one(4, lengths.len())?;
    check_whole(k, out, one, two)?;
    back_lengths(f, a / k, d / k, lengths, out / k, one / k, two / k)
}

// One level back to n samples, into the whole of `to`. It cannot refuse: these lengths are a level's.
pub fn restore(f: Filter, n: usize, a: &[u8], d: &[u8], to: &mut [u8])
    requires { Level (wavelet_of f) (width_of f) n (length to.old) (length a.now) (length d.now) }
    ensures { to.new ≡ back_of f a.now d.now }
{
    inverse(f, a, d, to);
}

// One level back: of the n approximations in front of `from` and the m details in front of `details`, to the front of `to`.
fn level_back(f: Filter, n: usize, m: usize, from: &[u8], details: &[u8], to: &mut [u8])
    requires level { Level (wavelet_of f) (width_of f) (n + m) (width_of f * (n + m)) (width_of f * n) (width_of f * m) }
    requires n_in_bounds { (width_of f * n ≤ length from.now) × (width_of f * m ≤ length details.now) × (width_of f * (n + m) ≤ length to.old) }
    ensures to_after { to.new ≡ back_of f (take (width_of f * n) from.now) (take (width_of f * m) details.now) ++ drop (width_of f * (n + m)) to.old }
    ensures details_len { length (back_of f (take (width_of f * n) from.now) (take (width_of f * m) details.now)) ≡ width_of f * (n + m) }
{
    let here = bytes_of(f, n);
    let seam = bytes_of(f, m);
    let there = bytes_of(f, n + m);
    restore(f, n + m, &from[..here], &details[..seam], &mut to[..there]);
}

// The levels of the lengths that are left: `from` holds n approximations in front, `to` is room, and the two change roles at each level, which a struct of the areas would hide. The last goes straight to the output.
fn up(
    f: Filter,
    n: usize,
    details: &[u8],
    lengths: &[u8],
    from: &mut [u8],
    to: &mut [u8],
    out: &mut [u8],
)
    requires some { 4 ≤ length lengths.now }
    requires rising { Rising f n (words_of 4 lengths.now) (length details.now) (length from.old) (length to.old) (length out.old) }
    ensures out_after { out.new ≡ samples_of f (take (width_of f * n) from.old) details.now (words_of 4 lengths.now) }
    ensures from_unchanged { drop (length out.old) from.new ≡ drop (length out.old) from.old }
    ensures to_unchanged { drop (length out.old) to.new ≡ drop (length out.old) to.old }
{
    let m = read_u32(lengths, 0) as usize;
    let rest = &lengths[4..];
    if rest.len() < 4 {
        level_back(f, n, m, from, details, out);
    } else {
        level_back(f, n, m, from, details, to);
        let seam = bytes_of(f, m);
        up(f, n + m, &details[seam..], rest, to, from, out);
    }
}

// The samples of approximations and details, joined deepest first, of which each level has as many as the lengths say.
#[tactic(auto, unfolding(base_answers::specs::Checks::Spared))]
pub fn multi_idwt(
    f: Filter,
    approx: &[u8],
    details: &[u8],
    lengths: &[u8],
    out: &mut [u8],
    one: &mut [u8],
    two: &mut [u8],
) -> Result<(), Refusal>
    ensures { MultiBack f approx.now details.now lengths.now out.old one.old two.old (answer_of (plain result)) out.new one.new two.new }
{
    check_back(
        f,
        approx.len(),
        details.len(),
        lengths,
        out.len(),
        one.len(),
        two.len(),
    )?;
    one[..approx.len()].copy_from_slice(approx);
    up(f, approx.len() / width(f), details, lengths, one, two, out);
    Ok(())
}
