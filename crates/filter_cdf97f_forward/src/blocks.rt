// 9/7 forward, one level block by block, once over f32 and f64: a block of small floats is read and written without a test.
// x, a and d are parameters of every step, and in no struct: a clause would have to name what each of its references held at entry, and be longer.
ghost use Rattle.std.specs.Prelude.{true, ◌≡◌, ◌+◌, ◌-◌, ◌*◌, ◌/◌, ◌≤◌, ◌<◌, min, map, length, get_or};
ghost use Rattle.std.specs.Float.{nan};
ghost use Rattle.base_samples.specs.Floats.{width};
ghost use Rattle.filter_floats.specs.Bands.{low, high};
ghost use Rattle.filter_floats.specs.Filters.{factors_of};
ghost use Rattle.filter_floats.specs.Kinds.{set_of};
ghost use Rattle.filter_floats.specs.Loops.{LentLow, Lent};
ghost use Rattle.filter_small.specs.Lists.{even_in, odd_in};
ghost use Rattle.filter_small.specs.Pieces.{Piece};
ghost use Rattle.filter_small.specs.Small.{SmallIf};
ghost use Rattle.filter_cdf97f_forward.specs.Ahead.{odds_one, evens_two, odds_three, Samples, Ahead, Carries, Hands, Splitting, Split};

use base_lengths::Wavelet;
use base_samples::floats::count;
use filter_floats::steps::Factors;
use filter_schedules::cdf97f;
use filter_small::lift::lift;
use filter_small::look::{Look, get, put, put_if, small_from};
use filter_small::rows::{BLOCK, Carry, Rows};

// The next turn's carry: p is odd entry i after the first step, q even entry i after the second. Even sample j is the right neighbour of the odd one that is read.
fn carry<F: Look>(t: Factors<F>, x: &[u8], i: usize, j: usize, p: F, q: F) -> Carry<F>
    requires samples { Samples F.format (set_of F.float t) x.now }
    requires i_in_bounds { (i + 1 < length x.now / width F.format / 2) × (j ≡ min (i + 2) ((length x.now / width F.format + 1) / 2 - 1)) }
    requires p_value { (F.float p ≡ get_or (odds_one F.format (set_of F.float t) x.now) i nan) × (F.float q ≡ get_or (evens_two F.format (set_of F.float t) x.now) i nan) }
    ensures { Carries F.format F.float t x.now (i + 1) result }
{
    let e: F = get(false, x, 2 * i + 2);
    let one = lift(e, get(false, x, 2 * j), t.alpha, get(false, x, 2 * i + 3));
    let two = lift(p, one, t.beta, e);
    let three = lift(q, two, t.gamma, p);
    Carry { one, two, three }
}

// The first carry; its `three` is odd entry 0, as none is before it. Even sample j is the right neighbour of the second odd sample.
fn first<F: Look>(t: Factors<F>, x: &[u8], j: usize) -> Carry<F>
    requires samples { Samples F.format (set_of F.float t) x.now }
    requires j_value { j ≡ min 2 ((length x.now / width F.format + 1) / 2 - 1) }
    ensures { Carries F.format F.float t x.now 0 result }
{
    let e: F = get(false, x, 0);
    let one = lift(e, get(false, x, 2), t.alpha, get(false, x, 1));
    let two = lift(one, one, t.beta, e);
    let three = carry(t, x, 0, j, one, two).three;
    Carry { one, two, three }
}

// Entry i of the bands that are wanted; `third` is its odd sample after the third step. x is read by the contract alone.
fn put_at<F: Look>(
    both: bool,
    small: bool,
    t: Factors<F>,
    x: &[u8],
    a: &mut [u8],
    d: &mut [u8],
    i: usize,
    s: Carry<F>,
    third: F,
)
    requires ahead { Ahead both F.format (set_of F.float t) x.now a.old d.old }
    requires splitting { Splitting both F.format (set_of F.float t) x.now a.old d.old i }
    requires carried { Carries F.format F.float t x.now i s }
    requires small_if { SmallIf small F.format x.now (2 * i - 4) (2 * i + 5) }
    requires i_in_bounds { (i < length x.now / width F.format / 2) × (F.float third ≡ get_or (odds_three F.format (set_of F.float t) x.now) i nan) }
    ensures { Splitting both F.format (set_of F.float t) x.now a.new d.new (i + 1) }
{
    put(small, a, i, lift(s.three, third, t.delta, s.two) * t.k);
    put_if(both, small, d, i, third * t.invk);
}

// Entry i of the bands, and the next turn's carry, where the right neighbour may be mirrored.
fn split_pair<F: Look>(
    both: bool,
    t: Factors<F>,
    x: &[u8],
    a: &mut [u8],
    d: &mut [u8],
    i: usize,
    j: usize,
    s: Carry<F>,
) -> Carry<F>
    requires ahead { Ahead both F.format (set_of F.float t) x.now a.old d.old }
    requires splitting { Splitting both F.format (set_of F.float t) x.now a.old d.old i }
    requires carried { Carries F.format F.float t x.now i s }
    requires i_in_bounds { (i + 1 < length x.now / width F.format / 2) × (j ≡ min (i + 2) ((length x.now / width F.format + 1) / 2 - 1)) }
    ensures carried_2 { Carries F.format F.float t x.now (i + 1) result }
    ensures splitting_2 { Splitting both F.format (set_of F.float t) x.now a.new d.new (i + 1) }
{
    let next = carry(t, x, i, j, s.one, s.two);
    put_at(both, false, t, x, a, d, i, s, next.three);
    next
}

// The pairs i to before i + n of x: even samples into y, odd ones into z, and into y the even sample after them.
fn read_pairs<F: Look>(small: bool, x: &[u8], rows: &mut Rows<F>, i: usize, n: usize)
    requires n_in_bounds { (n ≤ 256) × (2 * (i + n) < length x.now / width F.format) }
    requires small_if { SmallIf small F.format x.now (2 * i) (2 * (i + n) + 1) }
    ensures { Piece (even_in F.format x.now) 0 i (n + 1) (map F.float rows.new.y) × Piece (odd_in F.format x.now) 0 i n (map F.float rows.new.z) }
{
    for j in 0..n {
        let p = 2 * (i + j);
        rows.y[j] = get(small, x, p);
        rows.z[j] = get(small, x, p + 1);
    }
    rows.y[n] = get(small, x, 2 * (i + n));
}

// The entries i to before i + n of the bands that are wanted: u, v and w have what each turn is handed.
fn put_block<F: Look>(
    both: bool,
    small: bool,
    t: Factors<F>,
    x: &[u8],
    a: &mut [u8],
    d: &mut [u8],
    rows: &Rows<F>,
    i: usize,
    n: usize,
)
    requires ahead { Ahead both F.format (set_of F.float t) x.now a.old d.old }
    requires splitting { Splitting both F.format (set_of F.float t) x.now a.old d.old i }
    requires handed { Hands F.format F.float t x.now i n rows.now }
    requires small_if { SmallIf small F.format x.now (2 * i - 4) (2 * (i + n) + 3) }
    requires n_in_bounds { (n ≤ 256) × (i + n + 1 < length x.now / width F.format / 2) }
    ensures { Splitting both F.format (set_of F.float t) x.now a.new d.new (i + n) }
{
    for j in 0..n {
        put_at(
            both,
            small,
            t,
            x,
            a,
            d,
            i + j,
            rows.carry_at(j),
            rows.w[j + 1],
        );
    }
}

// The turns i to before i + n, none of whose right neighbours is mirrored, step by step through the rows.
fn split_block<F: Look>(
    both: bool,
    small: bool,
    t: Factors<F>,
    x: &[u8],
    a: &mut [u8],
    d: &mut [u8],
    rows: &mut Rows<F>,
    i: usize,
    n: usize,
    s: Carry<F>,
) -> Carry<F>
    requires ahead { Ahead both F.format (set_of F.float t) x.now a.old d.old }
    requires splitting { Splitting both F.format (set_of F.float t) x.now a.old d.old i }
    requires carried { Carries F.format F.float t x.now i s }
    requires small_if { SmallIf small F.format x.now (2 * i - 4) (2 * (i + n) + 3) }
    requires n_in_bounds { (n ≤ 256) × (i + n + 1 < length x.now / width F.format / 2) }
    ensures carried_2 { Carries F.format F.float t x.now (i + n) result }
    ensures splitting_2 { Splitting both F.format (set_of F.float t) x.now a.new d.new (i + n) }
{
    read_pairs(small, x, rows, i + 1, n);
    let next = rows.steps(t.alpha, t.beta, t.gamma, n, s);
    put_block(both, small, t, x, a, d, rows, i, n);
    next
}

// The last even sample after the second step: p is the last odd sample after the first, q the even one before it after the second.
fn top<F: Look>(t: Factors<F>, x: &[u8], p: F, q: F) -> F
    requires samples { Samples F.format (set_of F.float t) x.now }
    requires p_value { let last = length x.now / width F.format / 2 - 1 in (F.float p ≡ get_or (odds_one F.format (set_of F.float t) x.now) last nan) × (F.float q ≡ get_or (evens_two F.format (set_of F.float t) x.now) last nan) }
    ensures { F.float result ≡ get_or (evens_two F.format (set_of F.float t) x.now) ((length x.now / width F.format + 1) / 2 - 1) nan }
{
    let n = count::<F>(x);
    if n % 2 == 0 {
        return q;
    }
    lift(p, p, t.beta, get(false, x, n - 1))
}

// The last entries, whose right neighbours are mirrored.
fn split_end<F: Look>(
    both: bool,
    t: Factors<F>,
    x: &[u8],
    a: &mut [u8],
    d: &mut [u8],
    last: usize,
    s: Carry<F>,
)
    requires ahead { Ahead both F.format (set_of F.float t) x.now a.old d.old }
    requires splitting { Splitting both F.format (set_of F.float t) x.now a.old d.old last }
    requires carried { Carries F.format F.float t x.now last s }
    requires last_value { last ≡ length x.now / width F.format / 2 - 1 }
    ensures { Split both F.format (set_of F.float t) x.now a.new d.new }
{
    let q = top(t, x, s.one, s.two);
    let third = lift(s.two, q, t.gamma, s.one);
    put_at(both, false, t, x, a, d, last, s, third);
    if count::<F>(x) % 2 == 1 {
        put(false, a, last + 1, lift(third, third, t.delta, q) * t.k);
    }
}

// The turns from 0 to the one before the last two, block by block; what the next turn is handed is returned.
fn split_blocks<F: Look>(
    both: bool,
    t: Factors<F>,
    x: &[u8],
    a: &mut [u8],
    d: &mut [u8],
    last: usize,
    first: Carry<F>,
) -> Carry<F>
    requires ahead { Ahead both F.format (set_of F.float t) x.now a.old d.old }
    requires carried { Carries F.format F.float t x.now 0 first }
    requires last_value { last ≡ length x.now / width F.format / 2 - 1 }
    ensures carried_2 { Carries F.format F.float t x.now (last - 1) result }
    ensures splitting { Splitting both F.format (set_of F.float t) x.now a.new d.new (last - 1) }
{
    let mut rows: Rows<F> = Rows::default();
    let mut s = first;
    for i in (0..last - 1).step_by(BLOCK) {
        let n = BLOCK.min(last - 1 - i);
        let small = small_from::<F>(x, (2 * i).saturating_sub(4), 2 * (i + n) + 3);
        s = split_block(both, small, t, x, a, d, &mut rows, i, n, s);
    }
    s
}

// One level of the samples in x: approximations into a and, where `both` is set, details into d.
fn split_all<F: Look>(both: bool, t: Factors<F>, x: &[u8], a: &mut [u8], d: &mut [u8])
    requires { Ahead both F.format (set_of F.float t) x.now a.old d.old }
    ensures { Split both F.format (set_of F.float t) x.now a.new d.new }
{
    let n = count::<F>(x);
    let last = n / 2 - 1;
    let top = n.div_ceil(2) - 1;
    let s = first(t, x, top.min(2));
    let p = split_blocks(both, t, x, a, d, last, s);
    let r = split_pair(both, t, x, a, d, last - 1, top, p);
    split_end(both, t, x, a, d, last, r);
}

// One level of the samples in input: approximations into approx, details into details.
// Where one of the first samples is large the schedule is the faster way; a block with a large one later on is read and written with tests.
pub fn forward<F: Look>(t: Factors<F>, input: &[u8], approx: &mut [u8], details: &mut [u8])
    requires t_value { set_of F.float t ≡ factors_of F.format }
    requires lent { Lent F.format input.now approx.old details.old }
    requires in_bounds { 4 ≤ length input.now / width F.format }
    ensures { (approx.new ≡ low F.format Wavelet.Cdf97 input.now) × (details.new ≡ high F.format Wavelet.Cdf97 input.now) }
{
    if small_from::<F>(input, 0, 128) {
        split_all(true, t, input, approx, details);
    } else {
        cdf97f::forward(t, input, approx, details);
    }
}

// The approximations alone, by the same blocks, since the schedule would need room for details.
pub fn approximate<F: Look>(t: Factors<F>, input: &[u8], approx: &mut [u8])
    requires t_value { set_of F.float t ≡ factors_of F.format }
    requires lent_low { LentLow F.format input.now approx.old }
    requires in_bounds { 4 ≤ length input.now / width F.format }
    ensures { approx.new ≡ low F.format Wavelet.Cdf97 input.now }
{
    split_all(false, t, input, approx, &mut []);
}
