// The samples that the sections of a file restore, level by level from the deepest.
ghost use Rattle.std.specs.Prelude.{◌++◌, ◌≡◌, ◌+◌, ◌*◌, ◌≤◌, length, take, drop};
ghost use Rattle.base_lengths.specs.Lengths.{most_samples, approx_length, details_length, smallest_of};
ghost use Rattle.levels_filter.specs.Filters.{Integers, width_of, wavelet_of, back_of};
ghost use Rattle.levels_filter.specs.Calls.{Room};
ghost use Rattle.file_open.specs.Files.{body_size};
ghost use Rattle.file_open.specs.Walks.{bytes_at, restored_at};

use base_lengths::approx_length;
use levels_filter::filter::{Filter, bytes_of};
use levels_filter::levels::cut_of;
use levels_inverse::back;

// The bytes of a section of n samples at `at`, to the front of `to`.
fn fetch(f: Filter, n: usize, s: &[u8], at: usize, to: &mut [u8])
    requires n_in_bounds { at + (4 + width_of f * n) ≤ length s.now }
    requires n_in_bounds_2 { width_of f * n ≤ length to.old }
    ensures to_after { to.new ≡ bytes_at (width_of f) s.now n at ++ drop (width_of f * n) to.old }
    ensures at_len { length (bytes_at (width_of f) s.now n at) ≡ width_of f * n }
{
    let all = bytes_of(f, n);
    let start = at + 4;
    to[..all].copy_from_slice(&s[start..start + all]);
}

// One level back to n samples: the approximations in front of `other`, the details in the section at `at`.
fn build(f: Filter, n: usize, s: &[u8], at: usize, other: &[u8], to: &mut [u8])
    requires f_bound { smallest_of (wavelet_of f) ≤ n }
    requires n_le_most_samples { n ≤ most_samples }
    requires n_in_bounds { at + (4 + width_of f * details_length n) ≤ length s.now }
    requires n_in_bounds_2 { width_of f * approx_length n ≤ length other.now }
    requires n_in_bounds_3 { width_of f * n ≤ length to.old }
    ensures to_after { to.new ≡ back_of f (take (width_of f * approx_length n) other.now) (bytes_at (width_of f) s.now (details_length n) at) ++ drop (width_of f * n) to.old }
    ensures at_len { length (back_of f (take (width_of f * approx_length n) other.now) (bytes_at (width_of f) s.now (details_length n) at)) ≡ width_of f * n }
{
    let all = bytes_of(f, n);
    let cut = cut_of(f, n);
    let start = at + 4;
    let end = start + (all - cut);
    back::restore(f, n, &other[..cut], &s[start..end], &mut to[..all]);
}

// The n samples that so many levels of sections from `at` on restore, to the front of `to`; the two areas change roles at each level.
#[tactic(auto, using(crate::proofs::Parts::restoring))]
pub fn restore(
    f: Filter,
    s: &[u8],
    levels: usize,
    n: usize,
    at: usize,
    to: &mut [u8],
    other: &mut [u8],
)
    requires integers { Integers f }
    requires room { Room f levels n (length to.old) (length other.old) }
    requires n_in_bounds { at + body_size (width_of f) levels n ≤ length s.now }
    ensures to_after { to.new ≡ restored_at (width_of f) s.now levels n at ++ drop (width_of f * n) to.old }
    ensures other_unchanged { drop (width_of f * n) other.new ≡ drop (width_of f * n) other.old }
    ensures at_len { length (restored_at (width_of f) s.now levels n at) ≡ width_of f * n }
{
    if levels == 0 {
        fetch(f, n, s, at, to);
    } else {
        let half = approx_length(n);
        restore(f, s, levels - 1, half, at, other, to);
        let cut = cut_of(f, n);
        let place = at + (4 * levels + cut);
        build(f, n, s, place, other, to);
    }
}
