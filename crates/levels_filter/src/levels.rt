// What the drivers share: the levels and the room that are asked for, and where bands stand and how many bytes they are.
ghost use Rattle.std.specs.Prelude.{◌≡◌, ◌*◌, ◌<◌, ◌≤◌, ◌^◌};
ghost use Rattle.base_answers.specs.Checks.{passes};
ghost use Rattle.base_lengths.specs.Lengths.{most_samples};
ghost use Rattle.levels_filter.specs.Filters.{width_of};
ghost use Rattle.levels_filter.specs.Pyramids.{count_size, laid_size};
ghost use Rattle.levels_filter.specs.Calls.{too_short, depth_checks, room_checks, Cut};

use crate::filter::{Filter, bytes_of, wavelet, width};
use base_answers::err::Refusal;
use base_lengths::checks::two_areas;
use base_lengths::{MOST_SAMPLES, approx_length, at_least_one, depth};

// The byte at which the details of n samples start, where the approximations stand before them.
pub fn cut_of(f: Filter, n: usize) -> usize
    requires { width_of f * n < 2 ^ 63 }
    ensures { Cut f n result }
{
    width(f) * approx_length(n)
}

// The bytes of a count: four, or none where bands stand without counts.
fn count_size(counted: bool) -> usize
    ensures { result ≡ count_size counted }
{
    if counted { 4 } else { 0 }
}

// The bytes of all bands of n samples and so many levels, with their counts or without.
pub fn laid_size(f: Filter, counted: bool, levels: usize, n: usize) -> usize
    requires { (levels < 256) × (n ≤ most_samples) }
    ensures { result ≡ laid_size (count_size counted) (width_of f) levels n }
{
    count_size(counted) * (levels + 1) + bytes_of(f, n)
}

// An input too short for one level: the integer filters say 1, the float filters 4, as in the Rust.
fn too_short(f: Filter, n: usize) -> Refusal
    ensures { result ≡ too_short f n }
{
    match f {
        Filter::Cdf53I8 | Filter::Cdf53I16 | Filter::Cdf53I32 => Refusal::MinFilterSize(n, 3),
        _ => Refusal::BufferWasTooSmallForLevel,
    }
}

// The levels asked for of n samples.
pub fn check_depth(f: Filter, levels: usize, n: usize) -> Result<(), Refusal>
    ensures { result ≡ passes (depth_checks f levels n) }
{
    if MOST_SAMPLES < n {
        return Err(Refusal::TooLong);
    }
    if depth(wavelet(f), n) < at_least_one(levels) {
        return Err(if levels <= 1 {
            too_short(f, n)
        } else {
            Refusal::BufferWasTooSmallForLevel
        });
    }
    Ok(())
}

// Room for n samples: m of the output, u and v of the work areas.
pub fn check_room(n: usize, m: usize, u: usize, v: usize) -> Result<(), Refusal>
    ensures { result ≡ passes (room_checks n m u v) }
{
    if m != n {
        return Err(Refusal::OutputSizeIsNotValid(m, n));
    }
    two_areas(u, v, n)
}
