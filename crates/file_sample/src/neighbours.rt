// One sample from the sections of a file: an even one is worked out from the level below, an odd one from its two even neighbours. Two samples that follow each
// other need only two that follow each other below, so a level costs one call of each function.
ghost use Rattle.std.specs.Prelude.{◌≡◌, ◌+◌, ◌-◌, ◌*◌, ◌/◌, ◌^◌, ◌≤◌, ◌<◌, min, length};
ghost use Rattle.base_lengths.specs.Lengths.{approx_length, details_length};
ghost use Rattle.base_samples.specs.Words.{word_at};
ghost use Rattle.file_open.specs.Files.{body_size};
ghost use Rattle.file_open.specs.Walks.{bytes_at};
ghost use Rattle.file_sample.specs.Neighbours.{word_in, even_by, Stands, EvensOf, AroundOf, Chosen};

use base_lengths::{approx_length, details_length};
use base_samples::integers::Sample;
use filter_cdf53i::steps::{even_of, odd_of};

// Two samples: one, and the one that is read after it; where there is none, the last one again.
#[derive(Clone, Copy)]
struct TwoWords<S> {
    here: S,
    after: S,
}

// An even sample, the odd one after it and the next even one; where there is none, the last one again.
#[derive(Clone, Copy)]
struct ThreeWords<S> {
    here: S,
    between: S,
    after: S,
}

// Sample i that is stored in the section of `count` samples at `at`.
fn stored_word<S: Sample>(s: &[u8], count: usize, at: usize, i: usize) -> S
    requires { (at + (4 + S.bytes * count) ≤ length s.now) × (i < count) }
    ensures { S.word result ≡ word_at S.bytes (bytes_at S.bytes s.now count at) i }
{
    let start = at + 4;
    let end = start + S::bytes() * count;
    S::get(&s[start..end], i)
}

// Detail i of a level of n samples, whose details stand at `at`.
fn detail_in<S: Sample>(s: &[u8], n: usize, at: usize, i: usize) -> S
    requires { (at + (4 + S.bytes * details_length n) ≤ length s.now) × (i < details_length n) }
    ensures { S.word result ≡ word_at S.bytes (bytes_at S.bytes s.now (details_length n) at) i }
{
    stored_word(s, details_length(n), at, i)
}

// Even sample i of that level, whose approximation is x.
fn even_in<S: Sample>(s: &[u8], n: usize, at: usize, x: S, i: usize) -> S
    requires { (at + (4 + S.bytes * details_length n) ≤ length s.now) × (i ≤ details_length n) × (1 ≤ details_length n) }
    ensures { S.word result ≡ even_by S.bytes s.now (details_length n) at (S.word x) i }
{
    let left = detail_in::<S>(s, n, at, i.saturating_sub(1));
    let right = detail_in::<S>(s, n, at, i.min(details_length(n) - 1));
    even_of(x, left, right)
}

// Where the details of the last of so many levels of n samples stand: behind the sections of one level less.
fn details_at<S: Sample>(levels: usize, n: usize, at: usize) -> usize
    requires { (1 ≤ levels) × (at + body_size S.bytes levels n < 2 ^ 63) }
    ensures { result ≡ at + body_size S.bytes (levels - 1) (approx_length n) }
{
    at + (4 * levels + S::bytes() * approx_length(n))
}

// Of an even sample, the odd one after it and the next even one, sample r, which is one of the first two, and the one after it: r again where `next` is not after it.
fn chosen<S: Sample>(t: ThreeWords<S>, r: usize, next: usize) -> TwoWords<S>
    ensures { Chosen (S.word t.here) (S.word t.between) (S.word t.after) r next (S.word result.here) (S.word result.after) }
{
    if r % 2 == 0 {
        return TwoWords {
            here: t.here,
            after: t.between,
        };
    }
    if r < next {
        return TwoWords {
            here: t.between,
            after: t.after,
        };
    }
    TwoWords {
        here: t.between,
        after: t.between,
    }
}

// Parameters, and no struct of them with `Stands` as its ghost field: LLVM hands such a struct on in memory, and samples in a row then took 334 ns each for 312 (10 levels of 16 bits, x86-64).

// Even sample r of the n in section 1 at `at`, and the next even one, or the last again.
#[tactic(auto, unfolding(file_open::specs::Walks::restored_at))]
fn deepest_evens<S: Sample>(s: &[u8], n: usize, at: usize, r: usize) -> TwoWords<S>
    requires stands { Stands S.bytes 0 n at (length s.now) }
    requires r_bound { r < approx_length n }
    ensures { EvensOf S.bytes s.now 0 n at r (S.word result.here) (S.word result.after) }
{
    let next = (r + 1).min(approx_length(n) - 1);
    TwoWords {
        here: stored_word(s, n, at, 2 * r),
        after: stored_word(s, n, at, 2 * next),
    }
}

// The same of a level that is restored, from the samples t around sample r of the level below, and the details.
fn restored_evens<S: Sample>(
    s: &[u8],
    levels: usize,
    n: usize,
    at: usize,
    r: usize,
    t: ThreeWords<S>,
) -> TwoWords<S>
    requires stands { Stands S.bytes levels n at (length s.now) }
    requires le_levels { (1 ≤ levels) × (r < approx_length n) }
    requires around_of { AroundOf S.bytes s.now (levels - 1) (approx_length n) at (r / 2) (S.word t.here) (S.word t.between) (S.word t.after) }
    ensures { EvensOf S.bytes s.now levels n at r (S.word result.here) (S.word result.after) }
{
    let next = (r + 1).min(approx_length(n) - 1);
    let x = chosen(t, r, next);
    let place = details_at::<S>(levels, n, at);
    TwoWords {
        here: even_in(s, n, place, x.here, r),
        after: even_in(s, n, place, x.after, next),
    }
}

// The odd sample after even sample r, or r again where that is the last sample; e is the two even ones beside it.
#[tactic(auto, using(crate::proofs::OneSample::odd_lifted), unfolding(file_open::specs::Walks::restored_at))]
fn odd_between<S: Sample>(
    s: &[u8],
    levels: usize,
    n: usize,
    at: usize,
    r: usize,
    e: TwoWords<S>,
) -> S
    requires stands { Stands S.bytes levels n at (length s.now) }
    requires evens_of { EvensOf S.bytes s.now levels n at r (S.word e.here) (S.word e.after) }
    requires r_bound { r < approx_length n }
    ensures { S.word result ≡ word_in S.bytes s.now levels n at (min (2 * r + 1) (n - 1)) }
{
    if n <= 2 * r + 1 {
        return e.here;
    }
    if levels == 0 {
        return stored_word(s, n, at, 2 * r + 1);
    }
    let place = details_at::<S>(levels, n, at);
    let d = detail_in(s, n, place, r);
    odd_of(e.here, d, e.after)
}

// Even sample r of the n that so many levels of sections from `at` on restore, and the next even one: from the level below.
#[cycle(even_samples_odd_sample)]
fn even_samples<S: Sample>(s: &[u8], levels: usize, n: usize, at: usize, r: usize) -> TwoWords<S>
    requires stands { Stands S.bytes levels n at (length s.now) }
    requires r_bound { r < approx_length n }
    ensures { EvensOf S.bytes s.now levels n at r (S.word result.here) (S.word result.after) }
{
    if levels == 0 {
        return deepest_evens(s, n, at, r);
    }
    let t = odd_sample(s, levels - 1, approx_length(n), at, r / 2);
    restored_evens(s, levels, n, at, r, t)
}

// Odd sample r of them, or the last sample where there is none, and the even ones beside it, which it is worked out from.
#[cycle(even_samples_odd_sample)]
fn odd_sample<S: Sample>(s: &[u8], levels: usize, n: usize, at: usize, r: usize) -> ThreeWords<S>
    requires stands { Stands S.bytes levels n at (length s.now) }
    requires r_bound { r < approx_length n }
    ensures { AroundOf S.bytes s.now levels n at r (S.word result.here) (S.word result.between) (S.word result.after) }
{
    let e = even_samples(s, levels, n, at, r);
    ThreeWords {
        here: e.here,
        between: odd_between(s, levels, n, at, r, e),
        after: e.after,
    }
}

// Sample j of them.
pub fn word_of<S: Sample>(s: &[u8], levels: usize, n: usize, at: usize, j: usize) -> S
    requires stands { Stands S.bytes levels n at (length s.now) }
    requires j_lt_n { j < n }
    ensures { S.word result ≡ word_in S.bytes s.now levels n at j }
{
    if j % 2 == 0 {
        let e = even_samples(s, levels, n, at, j / 2);
        return e.here;
    }
    let t = odd_sample(s, levels, n, at, j / 2);
    t.between
}
