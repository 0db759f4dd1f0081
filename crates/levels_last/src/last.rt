// `dwt`: the last level's two bands. The levels above it make approximations alone, from one work area to the other.
ghost use Rattle.std.specs.Prelude.{◌≡◌, ◌+◌, ◌-◌, ◌*◌, length, take, drop};
ghost use Rattle.base_answers.specs.Answers.{answer_of, plain};
ghost use Rattle.base_answers.specs.Checks.{passes};
ghost use Rattle.base_lengths.specs.Lengths.{approx_length};
ghost use Rattle.base_lengths.specs.Levels.{count_at};
ghost use Rattle.levels_filter.specs.Filters.{width_of, low_of};
ghost use Rattle.levels_filter.specs.Pyramids.{approx_at};
ghost use Rattle.levels_filter.specs.Calls.{BandsOf, Parted, Room, Ready, dwt_checks, say_dwt, Dwt};

use base_answers::err::Refusal;
use base_lengths::checks::{check_one, check_whole, forward_bands, two_areas};
use base_lengths::{MOST_SAMPLES, approx_length, at_least_one, count_at, depth};
use levels_filter::filter::{Filter, approximate, bytes_of, forward, wavelet, width};
use levels_filter::levels::cut_of;

// The approximations of the n samples in front of `from`, to the front of `to`.
fn level_above(f: Filter, n: usize, from: &[u8], to: &mut [u8])
    requires { Room f 1 n (length from.now) (length to.old) }
    ensures to_after { take (width_of f * approx_length n) to.new ≡ low_of f (take (width_of f * n) from.now) }
    ensures to_unchanged { drop (width_of f * n) to.new ≡ drop (width_of f * n) to.old }
{
    let all = bytes_of(f, n);
    let cut = cut_of(f, n);
    approximate(f, &from[..all], &mut to[..cut]);
}

// So many levels of the n samples in front of `from`, and then the last one, whose bands are kept. The two areas change roles at each level, which a struct of the areas would hide.
fn sink(
    f: Filter,
    levels: usize,
    n: usize,
    from: &mut [u8],
    to: &mut [u8],
    approx: &mut [u8],
    details: &mut [u8],
)
    requires room { Room f (levels + 1) n (length from.old) (length to.old) }
    requires bands_of { BandsOf f (count_at levels n) (length approx.old) (length details.old) }
    ensures parted { Parted f (approx_at f levels (take (width_of f * n) from.old)) approx.new details.new }
    ensures from_unchanged { drop (width_of f * n) from.new ≡ drop (width_of f * n) from.old }
    ensures to_unchanged { drop (width_of f * n) to.new ≡ drop (width_of f * n) to.old }
{
    if levels == 0 {
        let all = bytes_of(f, n);
        forward(f, &from[..all], approx, details);
    } else {
        level_above(f, n, from, to);
        let half = approx_length(n);
        sink(f, levels - 1, half, to, from, approx, details);
    }
}

// All levels, once the checks have passed.
fn run_last(
    f: Filter,
    levels: usize,
    n: usize,
    signal: &[u8],
    approx: &mut [u8],
    details: &mut [u8],
    one: &mut [u8],
    two: &mut [u8],
)
    requires ready { Ready f levels n (length signal.now) (length one.old) (length two.old) }
    requires bands_of { BandsOf f (count_at (levels - 1) n) (length approx.old) (length details.old) }
    ensures parted { Parted f (approx_at f (levels - 1) signal.now) approx.new details.new }
    ensures one_unchanged { drop (width_of f * n) one.new ≡ drop (width_of f * n) one.old }
    ensures two_unchanged { drop (width_of f * n) two.new ≡ drop (width_of f * n) two.old }
{
    if levels == 1 {
        forward(f, signal, approx, details);
    } else {
        level_above(f, n, signal, one);
        let half = approx_length(n);
        sink(f, levels - 2, half, one, two, approx, details);
    }
}

// By samples: n of the signal, a and d of the bands, u and v of the work areas.
fn dwt_lengths(
    f: Filter,
    levels: usize,
    n: usize,
    a: usize,
    d: usize,
    u: usize,
    v: usize,
) -> Result<(), Refusal>
    ensures { result ≡ passes (dwt_checks f levels n a d u v) }
{
    if MOST_SAMPLES < n {
        return Err(Refusal::TooLong);
    }
    let l = at_least_one(levels);
    if depth(wavelet(f), n) < l {
        return Err(Refusal::BufferWasTooSmallForLevel);
    }
    let m = count_at(l - 1, n);
    forward_bands(m, a, d)?;
    two_areas(u, v, n)
}

// What `dwt` says, by byte lengths.
#[tactic(auto, unfolding(levels_filter::specs::Calls::say_dwt))]
fn check_dwt(
    f: Filter,
    levels: usize,
    signal: usize,
    approx: usize,
    details: usize,
    one: usize,
    two: usize,
) -> Result<(), Refusal>
    ensures { plain result ≡ say_dwt f levels signal approx details one two }
{
    let k = width(f);
    check_whole(k, signal, approx, details)?;
    check_one(k, one)?;
    check_one(k, two)?;
    dwt_lengths(
        f,
        levels,
        signal / k,
        approx / k,
        details / k,
        one / k,
        two / k,
    )
}

// The approximations and the details of the last level.
#[tactic(auto, unfolding(base_answers::specs::Checks::Spared))]
pub fn dwt(
    f: Filter,
    levels: usize,
    signal: &[u8],
    approx: &mut [u8],
    details: &mut [u8],
    one: &mut [u8],
    two: &mut [u8],
) -> Result<(), Refusal>
    ensures { Dwt f levels signal.now approx.old details.old one.old two.old (answer_of (plain result)) approx.new details.new one.new two.new }
{
    check_dwt(
        f,
        levels,
        signal.len(),
        approx.len(),
        details.len(),
        one.len(),
        two.len(),
    )?;
    let n = signal.len() / width(f);
    run_last(
        f,
        at_least_one(levels),
        n,
        signal,
        approx,
        details,
        one,
        two,
    );
    Ok(())
}
