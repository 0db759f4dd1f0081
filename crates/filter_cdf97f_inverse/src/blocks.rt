// The inverse of 9/7, one level block by block, once over f32 and f64.
// x, a and d are parameters of every step, and in no struct: a clause would have to name what each of its references held at entry, and be longer.
ghost use Rattle.std.specs.Prelude.{◌≡◌, ◌+◌, ◌-◌, ◌/◌, ◌≤◌, ◌<◌, map, length, get_or};
ghost use Rattle.std.specs.Float.{nan};
ghost use Rattle.base_samples.specs.Floats.{width};
ghost use Rattle.filter_floats.specs.Bands.{back};
ghost use Rattle.filter_floats.specs.Filters.{factors_of, turned};
ghost use Rattle.filter_floats.specs.Kinds.{set_of};
ghost use Rattle.filter_floats.specs.Loops.{Lent};
ghost use Rattle.filter_small.specs.Small.{SmallIf, BothSmallIf};
ghost use Rattle.filter_small.specs.Pieces.{Piece};
ghost use Rattle.filter_cdf97f_inverse.specs.Back.{times_of, odds_two, evens_three, Bands97, Carries, Pairs, Restoring};

use base_lengths::Wavelet;
use base_samples::floats::count;
use filter_floats::steps::Factors;
use filter_schedules::cdf97f;
use filter_small::lift::lift;
use filter_small::look::{Look, get, put, small_bands};
use filter_small::rows::{BLOCK, Carry, Rows};

// What a pair is made of: `two` is its odd entry after the second step, `three` its even sample, and `next` the even sample to the right.
#[derive(Clone, Copy)]
struct Parts<F> {
    two: F,
    three: F,
    next: F,
}

// Float i of s times k.
fn times<F: Look>(small: bool, s: &[u8], i: usize, k: F) -> F
    requires i_in_bounds { i < length s.now / width F.format }
    requires small_if { SmallIf small F.format s.now i (i + 1) }
    ensures { F.float result ≡ get_or (times_of F.format (F.float k) s.now) i nan }
{
    get::<F>(small, s, i) * k
}

// What the first turn is handed.
fn first<F: Look>(t: Factors<F>, a: &[u8], d: &[u8]) -> Carry<F>
    requires { Bands97 F.format (set_of F.float t) a.now d.now }
    ensures { Carries F.format F.float t a.now d.now 0 result }
{
    let y = times(false, d, 0, t.k);
    let e = lift(y, y, t.delta, times(false, a, 0, t.invk));
    let one = lift(
        y,
        times(false, d, 1, t.k),
        t.delta,
        times(false, a, 1, t.invk),
    );
    let two = lift(e, one, t.gamma, y);
    let three = lift(two, two, t.beta, e);
    Carry { one, two, three }
}

// Pair i of the samples into x: its even sample and its odd one. a and d are read by the contract alone.
fn put_pair<F: Look>(
    small: bool,
    t: Factors<F>,
    a: &[u8],
    d: &[u8],
    x: &mut [u8],
    i: usize,
    p: Parts<F>,
)
    requires bands97 { Bands97 F.format (set_of F.float t) a.now d.now }
    requires restoring { Restoring F.format (set_of F.float t) a.now d.now x.old i }
    requires both_small_if { BothSmallIf small F.format a.now d.now (i - 2) (i + 3) }
    requires pair { Pairs F.format F.float t a.now d.now i p }
    ensures { Restoring F.format (set_of F.float t) a.now d.now x.new (i + 1) }
{
    put(small, x, 2 * i, p.three);
    put(small, x, 2 * i + 1, lift(p.three, p.next, t.alpha, p.two));
}

// What the last pair is made of, i being the one before. The right neighbours are mirrored: there are as many approximations as details, or one more.
fn last<F: Look>(t: Factors<F>, a: &[u8], d: &[u8], i: usize, s: Carry<F>) -> Parts<F>
    requires bands97 { Bands97 F.format (set_of F.float t) a.now d.now }
    requires carried { Carries F.format F.float t a.now d.now i s }
    requires i_value { i + 2 ≡ length d.now / width F.format }
    ensures { Pairs F.format F.float t a.now d.now (i + 1) result }
{
    let j = i + 1;
    let y = times(false, d, j, t.k);
    if count::<F>(a) == j + 1 {
        let two = lift(s.one, s.one, t.gamma, y);
        let three = lift(s.two, two, t.beta, s.one);
        return Parts {
            two,
            three,
            next: three,
        };
    }
    let one = lift(y, y, t.delta, times(false, a, j + 1, t.invk));
    let two = lift(s.one, one, t.gamma, y);
    Parts {
        two,
        three: lift(s.two, two, t.beta, s.one),
        next: lift(two, two, t.beta, one),
    }
}

// The last two pairs, i and the one after it, and where there is one more approximation its sample.
fn restore_end<F: Look>(t: Factors<F>, a: &[u8], d: &[u8], x: &mut [u8], i: usize, s: Carry<F>)
    requires bands97 { Bands97 F.format (set_of F.float t) a.now d.now }
    requires restoring { Restoring F.format (set_of F.float t) a.now d.now x.old i }
    requires carried { Carries F.format F.float t a.now d.now i s }
    requires i_value { i + 2 ≡ length d.now / width F.format }
    ensures { x.new ≡ back F.format Wavelet.Cdf97 a.now d.now }
{
    let j = i + 1;
    let end = last(t, a, d, i, s);
    let here = Parts {
        two: s.two,
        three: s.three,
        next: end.three,
    };
    put_pair(false, t, a, d, x, i, here);
    put_pair(false, t, a, d, x, j, end);
    if j + 1 < count::<F>(a) {
        put(false, x, 2 * (j + 1), end.next);
    }
}

// The floats i to before i + n of s, each times k, into y.
fn read_times<F: Look>(small: bool, k: F, s: &[u8], y: &mut [F], i: usize, n: usize)
    requires n_in_bounds { (i + n ≤ length s.now / width F.format) × (n ≤ length y.old) }
    requires small_if { SmallIf small F.format s.now i (i + n) }
    ensures { Piece (times_of F.format (F.float k) s.now) 0 i n (map F.float y.new) }
{
    for j in 0..n {
        y[j] = times(small, s, i + j, k);
    }
}

// The pairs i to before i + n into x: v has the odd entries from i on after the second step, w the even ones after the third.
fn put_pairs<F: Look>(
    small: bool,
    t: Factors<F>,
    a: &[u8],
    d: &[u8],
    x: &mut [u8],
    rows: &Rows<F>,
    i: usize,
    n: usize,
)
    requires bands97 { Bands97 F.format (set_of F.float t) a.now d.now }
    requires restoring { Restoring F.format (set_of F.float t) a.now d.now x.old i }
    requires both_small_if { BothSmallIf small F.format a.now d.now (i - 2) (i + n + 2) }
    requires piece { Piece (odds_two F.format (set_of F.float t) a.now d.now) 0 i (n + 1) (map F.float rows.now.v) }
    requires piece_2 { Piece (evens_three F.format (set_of F.float t) a.now d.now) 0 i (n + 1) (map F.float rows.now.w) }
    requires n_in_bounds { (n ≤ 256) × (i + n + 2 ≤ length d.now / width F.format) }
    ensures { Restoring F.format (set_of F.float t) a.now d.now x.new (i + n) }
{
    for j in 0..n {
        let p = Parts {
            two: rows.v[j],
            three: rows.w[j],
            next: rows.w[j + 1],
        };
        put_pair(small, t, a, d, x, i + j, p);
    }
}

// The turns i to before i + n, step by step through the rows.
fn restore_block<F: Look>(
    small: bool,
    t: Factors<F>,
    a: &[u8],
    d: &[u8],
    x: &mut [u8],
    rows: &mut Rows<F>,
    i: usize,
    n: usize,
    s: Carry<F>,
) -> Carry<F>
    requires bands97 { Bands97 F.format (set_of F.float t) a.now d.now }
    requires restoring { Restoring F.format (set_of F.float t) a.now d.now x.old i }
    requires carried { Carries F.format F.float t a.now d.now i s }
    requires both_small_if { BothSmallIf small F.format a.now d.now (i - 2) (i + n + 2) }
    requires n_in_bounds { (n ≤ 256) × (i + n + 2 ≤ length d.now / width F.format) }
    ensures restoring_2 { Restoring F.format (set_of F.float t) a.now d.now x.new (i + n) }
    ensures carried_2 { Carries F.format F.float t a.now d.now (i + n) result }
{
    read_times(small, t.k, d, &mut rows.y, i + 1, n + 1);
    read_times(small, t.invk, a, &mut rows.z, i + 2, n);
    let next = rows.steps(t.delta, t.gamma, t.beta, n, s);
    put_pairs(small, t, a, d, x, rows, i, n);
    next
}

// The samples whose approximations are in a and details in d, into x. A block of small floats is read and written without tests.
// Not inlined: the rows are 10 KB of stack at f64, which every filter's way back would reserve with it.
#[inline(never)]
fn restore_all<F: Look>(t: Factors<F>, a: &[u8], d: &[u8], x: &mut [u8])
    requires bands97 { Bands97 F.format (set_of F.float t) a.now d.now }
    requires restoring { Restoring F.format (set_of F.float t) a.now d.now x.old 0 }
    ensures { x.new ≡ back F.format Wavelet.Cdf97 a.now d.now }
{
    let mut rows: Rows<F> = Rows::default();
    let mut s = first(t, a, d);
    let last = count::<F>(d) - 2;
    for i in (0..last).step_by(BLOCK) {
        let n = BLOCK.min(last - i);
        let small = small_bands::<F>(a, d, i.saturating_sub(2), i + n + 2);
        s = restore_block(small, t, a, d, x, &mut rows, i, n, s);
    }
    restore_end(t, a, d, x, last, s);
}

// The samples whose approximations are in approx and details in details, into output.
// Where one of the first floats is large the schedule is the faster way; a block with a large one later on is read and written with tests.
pub fn inverse<F: Look>(t: Factors<F>, approx: &[u8], details: &[u8], output: &mut [u8])
    requires t_value { set_of F.float t ≡ turned (factors_of F.format) }
    requires lent { Lent F.format output.old approx.now details.now }
    requires in_bounds { 4 ≤ length output.old / width F.format }
    ensures { output.new ≡ back F.format Wavelet.Cdf97 approx.now details.now }
{
    if small_bands::<F>(approx, details, 0, count::<F>(details).min(64)) {
        restore_all(t, approx, details, output);
    } else {
        cdf97f::inverse(t, approx, details, output);
    }
}
