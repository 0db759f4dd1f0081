// The bands of many levels, each level's details straight to their place: after a count each, as in a file, or without counts, as in `multi_dwt`'s output.
ghost use Rattle.std.specs.Prelude.{◌++◌, ◌≡◌, ◌+◌, ◌*◌, ◌≤◌, length, take, drop};
ghost use Rattle.base_samples.specs.Le.{le_bytes, stored};
ghost use Rattle.base_lengths.specs.Lengths.{most_samples};
ghost use Rattle.levels_filter.specs.Filters.{width_of};
ghost use Rattle.levels_filter.specs.Pyramids.{count_size, laid_out, laid_size};
ghost use Rattle.levels_filter.specs.Calls.{Room, Ready};
ghost use Rattle.levels_forward.specs.Levels.{LevelLaid};

use base_lengths::{approx_length, details_length};
use base_samples::le::write_u32;
use levels_filter::filter::{Filter, bytes_of, forward};
use levels_filter::levels::{cut_of, laid_size};

// A count of n at a place, where there are counts; the result is the place after it.
fn put_count(counted: bool, n: usize, at: usize, out: &mut [u8]) -> usize
    requires { (n ≤ most_samples) × (at + count_size counted ≤ length out.old) }
    ensures { (result ≡ at + count_size counted) × (out.new ≡ stored (count_size counted) out.old at n) }
{
    if counted {
        write_u32(out, at, n as u32);
        return at + 4;
    }
    at
}

// The deepest approximations, after their count.
fn lay_deepest(counted: bool, n: usize, x: &[u8], out: &mut [u8])
    requires { (n ≤ most_samples) × (length out.old ≡ count_size counted + length x.now) }
    ensures { out.new ≡ le_bytes (count_size counted) n ++ x.now }
{
    let start = put_count(counted, n, 0, out);
    out[start..].copy_from_slice(x);
}

// One level: the approximations to the front of `to`, the details after their count to the end of `out`; where that count stands is the result. Of the two areas that `Ready` asks for it takes one. The count first: one part of a slice is lent at a time.
fn lay_level(
    f: Filter,
    counted: bool,
    levels: usize,
    n: usize,
    x: &[u8],
    to: &mut [u8],
    out: &mut [u8],
) -> usize
    requires ready { Ready f levels n (length x.now) (length to.old) (length to.old) }
    requires out_len { length out.old ≡ laid_size (count_size counted) (width_of f) levels n }
    ensures { LevelLaid f (count_size counted) levels n x.now to.old out.old result to.new out.new }
{
    let at = laid_size(f, counted, levels - 1, approx_length(n));
    let start = put_count(counted, details_length(n), at, out);
    let cut = cut_of(f, n);
    forward(f, x, &mut to[..cut], &mut out[start..]);
    at
}

// The levels below one: `from` holds n samples in front, `to` is room, and the two change roles at each level, which a struct of the areas would hide.
fn lay(
    f: Filter,
    counted: bool,
    levels: usize,
    n: usize,
    from: &mut [u8],
    to: &mut [u8],
    out: &mut [u8],
)
    requires room { Room f levels n (length from.old) (length to.old) }
    requires out_len { length out.old ≡ laid_size (count_size counted) (width_of f) levels n }
    ensures out_after { out.new ≡ laid_out f (count_size counted) levels n (take (width_of f * n) from.old) }
    ensures from_unchanged { drop (width_of f * n) from.new ≡ drop (width_of f * n) from.old }
    ensures to_unchanged { drop (width_of f * n) to.new ≡ drop (width_of f * n) to.old }
{
    let all = bytes_of(f, n);
    if levels == 0 {
        lay_deepest(counted, n, &from[..all], out);
    } else {
        let at = lay_level(f, counted, levels, n, &from[..all], to, out);
        let half = approx_length(n);
        lay(f, counted, levels - 1, half, to, from, &mut out[..at]);
    }
}

// All levels of the n samples in `signal`, which is only read.
pub fn lay_bands(
    f: Filter,
    counted: bool,
    levels: usize,
    n: usize,
    signal: &[u8],
    out: &mut [u8],
    one: &mut [u8],
    two: &mut [u8],
)
    requires ready { Ready f levels n (length signal.now) (length one.old) (length two.old) }
    requires out_len { length out.old ≡ laid_size (count_size counted) (width_of f) levels n }
    ensures out_after { out.new ≡ laid_out f (count_size counted) levels n signal.now }
    ensures one_unchanged { drop (width_of f * n) one.new ≡ drop (width_of f * n) one.old }
    ensures two_unchanged { drop (width_of f * n) two.new ≡ drop (width_of f * n) two.old }
{
    let at = lay_level(f, counted, levels, n, signal, one, out);
    let half = approx_length(n);
    lay(f, counted, levels - 1, half, one, two, &mut out[..at]);
}
