// Integer 5/3, one level, once over the sample. Ported from osclet's src/cdf53i.rs; execute_forward and execute_inverse with their checks are in levels_filter/src/filter.rt.
// x, a and d are parameters of every step, and in no struct: a clause would have to name what each of its references held at entry, and be longer.
ghost use Rattle.std.specs.Prelude.{◌≡◌, ◌+◌, ◌-◌, ◌*◌, ◌/◌, ◌^◌, ◌<◌, ◌≤◌, length};
ghost use Rattle.base_lengths.specs.Lengths.{approx_length, details_length};
ghost use Rattle.base_samples.specs.Words.{tabulate, Holds, Front};
ghost use Rattle.base_samples.specs.Integers.{wrap, decode, encode};
ghost use Rattle.filter_cdf53i.specs.Lift.{approx, even_count};
ghost use Rattle.filter_cdf53i.specs.Bands.{low, high, back, detail_word, approx_word, even_word, sample_word, details_from, evens_from, odds_from, Input, InputBands, Approximating, Restoring, Unmirrored, Inside, EnoughWords};

use crate::steps::{approx_at, approx_of, detail_at, even_at, odd_of};
use base_samples::integers::{Sample, count};

// The details of the samples in x, into d.
fn predict<S: Sample>(x: &[u8], d: &mut [u8])
    requires input { Input S.bytes x.now }
    requires holds { Holds S.bytes (details_length (length x.now / S.bytes)) d.old }
    ensures { d.new ≡ high S.bytes x.now }
{
    let n = count::<S>(x);
    let last = n / 2 - 1;
    for i in 0..last {
        S::put(d, i, detail_at::<S>(x, i, i + 1));
    }
    S::put(d, last, detail_at::<S>(x, last, (n + 1) / 2 - 1));
}

// The approximations of the samples in x and the stored details in d, into a.
fn update<S: Sample>(x: &[u8], a: &mut [u8], d: &[u8])
    requires { InputBands S.bytes x.now a.old d.now }
    ensures { a.new ≡ encode S.bytes (tabulate (even_count (decode S.bytes x.now)) (approx (wrap S.bytes) (decode S.bytes x.now) (decode S.bytes d.now))) }
{
    let n = count::<S>(x);
    let m = n / 2;
    let last = (n + 1) / 2 - 1;
    S::put(a, 0, approx_at::<S>(x, d, 0, 0, 0));
    for i in 1..last {
        S::put(a, i, approx_at::<S>(x, d, i, i - 1, i));
    }
    S::put(a, last, approx_at::<S>(x, d, last, last - 1, m - 1));
}

// One level of the samples in x: approximations into a, details into d.
pub fn forward<S: Sample>(x: &[u8], a: &mut [u8], d: &mut [u8])
    requires { InputBands S.bytes x.now a.old d.old }
    ensures { (a.new ≡ low S.bytes x.now) × (d.new ≡ high S.bytes x.now) }
{
    predict::<S>(x, d);
    update::<S>(x, a, d);
}

// The details i - 1 to i + n - 1 of the samples in x to the front of t, where detail -1 is detail 0. The first has the word e.
fn details_from<S: Sample>(x: &[u8], i: usize, n: usize, e: S, t: &mut [u8])
    requires unmirrored { Unmirrored S.bytes x.now i n }
    requires e_value { S.word e ≡ detail_word S.bytes x.now (i - 1) }
    requires enough_words { EnoughWords S.bytes (n + 1) t.old }
    ensures { Front S.bytes (length t.new / S.bytes) (n + 1) (details_from S.bytes x.now i) t.new }
{
    S::put(t, 0, e);
    for j in 0..n {
        S::put(t, j + 1, detail_at::<S>(x, i + j, i + j + 1));
    }
}

// The n approximations from i on, between the details in t, to their places in a.
fn approxs_from<S: Sample>(x: &[u8], i: usize, n: usize, t: &[u8], a: &mut [u8])
    requires unmirrored { Unmirrored S.bytes x.now i n }
    requires front { (Front S.bytes (length t.now / S.bytes) (n + 1) (details_from S.bytes x.now i) t.now) × (EnoughWords S.bytes (n + 1) t.now) }
    requires front_2 { Front S.bytes (approx_length (length x.now / S.bytes)) i (approx_word S.bytes x.now) a.old }
    ensures { Front S.bytes (approx_length (length x.now / S.bytes)) (i + n) (approx_word S.bytes x.now) a.new }
{
    for j in 0..n {
        S::put(
            a,
            i + j,
            approx_of(S::get(x, 2 * (i + j)), S::get(t, j), S::get(t, j + 1)),
        );
    }
}

// n approximations from i on, where detail i - 1 has the word e; the word of detail i + n - 1 is the result, for the next block. Details and approximations in loops of their own, as in restore_block.
fn approximate_block<S: Sample>(x: &[u8], a: &mut [u8], i: usize, n: usize, e: S, t: &mut [u8]) -> S
    requires unmirrored { Unmirrored S.bytes x.now i n }
    requires approximating { Approximating S.bytes x.now a.old i (S.word e) }
    requires enough_words { EnoughWords S.bytes (n + 1) t.old }
    ensures { Approximating S.bytes x.now a.new (i + n) (S.word result) }
{
    details_from(x, i, n, e, t);
    approxs_from::<S>(x, i, n, t, a);
    S::get(t, n)
}

// Approximation `last`, the number of the last detail, and the one after it where there is one: the ends, whose right neighbours are mirrored. Detail last - 1 has the word e.
fn approximate_end<S: Sample>(x: &[u8], a: &mut [u8], last: usize, e: S)
    requires input { Input S.bytes x.now }
    requires approximating { Approximating S.bytes x.now a.old last (S.word e) }
    requires last_value { last ≡ details_length (length x.now / S.bytes) - 1 }
    ensures { a.new ≡ low S.bytes x.now }
{
    let na = (count::<S>(x) + 1) / 2;
    let f = detail_at::<S>(x, last, na - 1);
    S::put(a, last, approx_of(S::get(x, 2 * last), e, f));
    if last + 1 < na {
        S::put(a, last + 1, approx_of(S::get(x, 2 * (last + 1)), f, f));
    }
}

// The approximations of the samples in x alone, into a. Not inlined, nor is `inverse`: the float filters beside them would reserve their arrays too.
#[inline(never)]
pub fn approximate<S: Sample>(x: &[u8], a: &mut [u8])
    requires input { Input S.bytes x.now }
    requires holds { Holds S.bytes (approx_length (length x.now / S.bytes)) a.old }
    ensures { a.new ≡ low S.bytes x.now }
{
    let last = count::<S>(x) / 2 - 1;
    let most = 1024 / S::bytes();
    let mut t: [u8; 1028] = [0; 1028];
    let mut e = detail_at::<S>(x, 0, 1);
    // Not a `for` over `step_by`: measured, it takes up to a fifth longer.
    let mut i = 0;
    while i < last {
        let n = most.min(last - i);
        e = approximate_block(x, a, i, n, e, &mut t);
        i += n;
    }
    approximate_end(x, a, last, e);
}

// The even samples i to i + n, of which the first has the word e, to the front of t.
fn evens_from<S: Sample>(a: &[u8], d: &[u8], i: usize, n: usize, e: S, t: &mut [u8])
    requires inside { Inside S.bytes a.now d.now i n }
    requires e_value { S.word e ≡ even_word S.bytes a.now d.now i }
    requires enough_words { EnoughWords S.bytes (n + 1) t.old }
    ensures { Front S.bytes (length t.new / S.bytes) (n + 1) (evens_from S.bytes a.now d.now i) t.new }
{
    S::put(t, 0, e);
    for j in 0..n {
        S::put(t, j + 1, even_at::<S>(a, d, i + j + 1, i + j, i + j + 1));
    }
}

// The n odd samples between those of t, to the front of u.
fn odds_from<S: Sample>(a: &[u8], d: &[u8], i: usize, n: usize, t: &[u8], u: &mut [u8])
    requires inside { Inside S.bytes a.now d.now i n }
    requires front { Front S.bytes (length t.now / S.bytes) (n + 1) (evens_from S.bytes a.now d.now i) t.now }
    requires enough_words { (EnoughWords S.bytes (n + 1) t.now) × (EnoughWords S.bytes n u.old) }
    ensures { Front S.bytes (length u.old / S.bytes) n (odds_from S.bytes a.now d.now i) u.new }
{
    for j in 0..n {
        S::put(
            u,
            j,
            odd_of(S::get(t, j), S::get(d, i + j), S::get(t, j + 1)),
        );
    }
}

// The n pairs of t and u to their places in x.
fn pairs_from<S: Sample>(a: &[u8], d: &[u8], i: usize, n: usize, t: &[u8], u: &[u8], x: &mut [u8])
    requires inside { Inside S.bytes a.now d.now i n }
    requires front { Front S.bytes (length t.now / S.bytes) (n + 1) (evens_from S.bytes a.now d.now i) t.now }
    requires front_2 { Front S.bytes (length u.now / S.bytes) n (odds_from S.bytes a.now d.now i) u.now }
    requires enough_words { (EnoughWords S.bytes (n + 1) t.now) × (EnoughWords S.bytes n u.now) × (2 * (i + n) ≤ length x.old / S.bytes) }
    requires front_3 { Front S.bytes (length x.old / S.bytes) (2 * i) (sample_word S.bytes a.now d.now) x.old }
    ensures { Front S.bytes (length x.old / S.bytes) (2 * (i + n)) (sample_word S.bytes a.now d.now) x.new }
{
    for j in 0..n {
        S::put(x, 2 * (i + j), S::get(t, j));
        S::put(x, 2 * (i + j) + 1, S::get(u, j));
    }
}

// n pairs from even sample i on, which has the word e; the word of the even sample after them is the result. Evens, odds and pairs in loops of their own, over what fits the nearest cache: LLVM takes as many words at a time as a register holds.
fn restore_block<S: Sample>(
    a: &[u8],
    d: &[u8],
    x: &mut [u8],
    i: usize,
    n: usize,
    e: S,
    t: &mut [u8],
    u: &mut [u8],
) -> S
    requires input_bands { InputBands S.bytes x.old a.now d.now }
    requires restoring { Restoring S.bytes (length x.old / S.bytes) a.now d.now x.old i (S.word e) }
    requires inside { Inside S.bytes a.now d.now i n }
    requires enough_words { (EnoughWords S.bytes (n + 1) t.old) × (EnoughWords S.bytes n u.old) }
    ensures { Restoring S.bytes (length x.old / S.bytes) a.now d.now x.new (i + n) (S.word result) }
{
    evens_from(a, d, i, n, e, t);
    odds_from::<S>(a, d, i, n, t, u);
    pairs_from::<S>(a, d, i, n, t, u, x);
    S::get(t, n)
}

// Even sample `last`, of the word e, the odd one after it, and the even one after that where there is one: the ends, whose right neighbours are mirrored.
fn restore_end<S: Sample>(a: &[u8], d: &[u8], x: &mut [u8], last: usize, e: S)
    requires input_bands { InputBands S.bytes x.old a.now d.now }
    requires restoring { Restoring S.bytes (length x.old / S.bytes) a.now d.now x.old last (S.word e) }
    requires last_value { last ≡ length d.now / S.bytes - 1 }
    ensures { x.new ≡ back S.bytes a.now d.now }
{
    S::put(x, 2 * last, e);
    if a.len() == d.len() {
        S::put(x, 2 * last + 1, odd_of(e, S::get(d, last), e));
    } else {
        let f = even_at::<S>(a, d, last + 1, last, last);
        S::put(x, 2 * last + 1, odd_of(e, S::get(d, last), f));
        S::put(x, 2 * (last + 1), f);
    }
}

// The samples whose approximations are in a and details in d, into x.
#[inline(never)]
pub fn inverse<S: Sample>(a: &[u8], d: &[u8], x: &mut [u8])
    requires { InputBands S.bytes x.old a.now d.now }
    ensures { x.new ≡ back S.bytes a.now d.now }
{
    let last = count::<S>(d) - 1;
    let most = 1024 / S::bytes();
    let mut t: [u8; 1028] = [0; 1028];
    let mut u: [u8; 1024] = [0; 1024];
    let mut e = even_at::<S>(a, d, 0, 0, 0);
    // Not a `for` over `step_by`: measured, it takes up to a fifth longer.
    let mut i = 0;
    while i < last {
        let n = most.min(last - i);
        e = restore_block(a, d, x, i, n, e, &mut t, &mut u);
        i += n;
    }
    restore_end(a, d, x, last, e);
}
