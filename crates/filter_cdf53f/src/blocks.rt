// 5/3, one level block by block.
// x, a and d are parameters of every step, and in no struct: a clause would have to name what each of its references held at entry, and be longer.
ghost use Rattle.std.specs.Prelude.{true, ◌≡◌, ◌+◌, ◌-◌, ◌*◌, ◌/◌, ◌≤◌, ◌<◌, min, length};
ghost use Rattle.base_samples.specs.Floats.{width};
ghost use Rattle.filter_floats.specs.Bands.{low, high, back};
ghost use Rattle.filter_floats.specs.Loops.{Lent, LentLow};
ghost use Rattle.filter_small.specs.Small.{SmallIf, BothSmallIf};
ghost use Rattle.filter_cdf53f.specs.Ahead.{Ahead, Splitting, Split};
ghost use Rattle.filter_cdf53f.specs.Back.{Restoring};

use crate::steps::{approximation, detail, even_sample, odd_sample};
use base_lengths::Wavelet;
use base_samples::floats::count;
use filter_floats::steps::Lifting;
use filter_schedules::cdf53f;
use filter_small::look::{Look, get, put, put_if, small_bands, small_from};

// The turns of a block: few enough that what the look has read is still near when the turns read it.
const SPAN: usize = 2048;

// Forward, what a turn hands to the next: an even sample, and the detail before it.
#[derive(Clone, Copy)]
struct Turn<F> {
    here: F,
    left: F,
}

// Detail i and approximation i of the samples in x. Even sample j is the right neighbour.
fn split_pair<F: Lifting>(
    both: bool,
    small: bool,
    x: &[u8],
    a: &mut [u8],
    d: &mut [u8],
    i: usize,
    j: usize,
    s: Turn<F>,
) -> Turn<F>
    requires ahead { Ahead both F.format x.now a.old d.old }
    requires splitting { Splitting both F.format x.now a.old d.old i (F.float s.here) (F.float s.left) }
    requires i_in_bounds { (i < length x.now / width F.format / 2) × (j ≡ min (i + 1) ((length x.now / width F.format + 1) / 2 - 1)) }
    requires small_if { SmallIf small F.format x.now (2 * i - 2) (2 * i + 3) }
    ensures { Splitting both F.format x.now a.new d.new (i + 1) (F.float result.here) (F.float result.left) }
{
    let next = get(small, x, 2 * j);
    let z = detail(s.here, next, get(small, x, 2 * i + 1));
    put_if(both, small, d, i, z);
    put(small, a, i, approximation(s.left, z, s.here));
    Turn {
        here: next,
        left: z,
    }
}

// The turns from i to before e. Where `small` is set the samples that they read are small.
fn split_block<F: Lifting>(
    both: bool,
    small: bool,
    x: &[u8],
    a: &mut [u8],
    d: &mut [u8],
    i: usize,
    e: usize,
    s: Turn<F>,
) -> Turn<F>
    requires ahead { Ahead both F.format x.now a.old d.old }
    requires splitting { Splitting both F.format x.now a.old d.old i (F.float s.here) (F.float s.left) }
    requires i_le_e { (i ≤ e) × (e < length x.now / width F.format / 2) }
    requires small_if { SmallIf small F.format x.now (2 * i - 2) (2 * e + 1) }
    ensures { Splitting both F.format x.now a.new d.new e (F.float result.here) (F.float result.left) }
{
    let mut s = s;
    for p in i..e {
        s = split_pair(both, small, x, a, d, p, p + 1, s);
    }
    s
}

// The last detail, whose right neighbour may be mirrored, and the last approximation or two; `last` and `top` are their places.
fn split_end<F: Lifting>(
    both: bool,
    x: &[u8],
    a: &mut [u8],
    d: &mut [u8],
    last: usize,
    top: usize,
    s: Turn<F>,
)
    requires ahead { Ahead both F.format x.now a.old d.old }
    requires splitting { Splitting both F.format x.now a.old d.old last (F.float s.here) (F.float s.left) }
    requires last_value { (last ≡ length x.now / width F.format / 2 - 1) × (top ≡ (length x.now / width F.format + 1) / 2 - 1) }
    ensures { Split both F.format x.now a.new d.new }
{
    let r = split_pair(both, false, x, a, d, last, top, s);
    if last < top {
        put(false, a, top, approximation(r.left, r.left, r.here));
    }
}

// One level of the samples in x: approximations into a and, where `both` is set, details into d. A block that has a large sample is read and written with tests.
fn split_all<F: Look>(both: bool, x: &[u8], a: &mut [u8], d: &mut [u8])
    requires { Ahead both F.format x.now a.old d.old }
    ensures { Split both F.format x.now a.new d.new }
{
    let n = count::<F>(x);
    let last = n / 2 - 1;
    let top = (n + 1) / 2 - 1;
    let first: F = get(false, x, 0);
    let mut s = Turn {
        here: first,
        left: detail(first, get(false, x, 2), get(false, x, 1)),
    };
    let mut i = 0;
    // No `step_by`: with it 64 samples take 7 percent longer, and a block with large ones up to 25.
    while i < last {
        let e = last.min(i + SPAN);
        let small = small_from::<F>(x, (2 * i).saturating_sub(2), 2 * e + 1);
        s = split_block(both, small, x, a, d, i, e, s);
        i = e;
    }
    split_end(both, x, a, d, last, top, s);
}

// One level of the samples in input: approximations into approx, details into details. Where one of the first is large the schedule is the faster way.
pub fn forward<F: Look>(input: &[u8], approx: &mut [u8], details: &mut [u8])
    requires { Lent F.format input.now approx.old details.old }
    ensures { (approx.new ≡ low F.format Wavelet.Cdf53 input.now) × (details.new ≡ high F.format Wavelet.Cdf53 input.now) }
{
    if small_from::<F>(input, 0, 128) {
        split_all::<F>(true, input, approx, details);
        return;
    }
    cdf53f::forward::<F>(input, approx, details);
}

// The approximations alone: the schedule would need room for details.
pub fn approximate<F: Look>(input: &[u8], approx: &mut [u8])
    requires { LentLow F.format input.now approx.old }
    ensures { approx.new ≡ low F.format Wavelet.Cdf53 input.now }
{
    split_all::<F>(false, input, approx, &mut []);
}

// Back: even sample i, which is e, and the odd one after it into x; the next even sample is the result.
fn restore_pair<F: Lifting>(small: bool, a: &[u8], d: &[u8], x: &mut [u8], i: usize, e: F) -> F
    requires lent { Lent F.format x.old a.now d.now }
    requires restoring { Restoring F.format (length x.old / width F.format) a.now d.now x.old i (F.float e) }
    requires i_in_bounds { i + 1 < length d.now / width F.format }
    requires both_small_if { BothSmallIf small F.format a.now d.now (i - 1) (i + 2) }
    ensures { Restoring F.format (length x.old / width F.format) a.now d.now x.new (i + 1) (F.float result) }
{
    let y = get(small, d, i);
    let next = even_sample(y, get(small, d, i + 1), get(small, a, i + 1));
    put(small, x, 2 * i, e);
    put(small, x, 2 * i + 1, odd_sample(e, next, y));
    next
}

// The turns from i to before j. Where `small` is set the floats that they read are small.
fn restore_block<F: Lifting>(
    small: bool,
    a: &[u8],
    d: &[u8],
    x: &mut [u8],
    i: usize,
    j: usize,
    e: F,
) -> F
    requires lent { Lent F.format x.old a.now d.now }
    requires restoring { Restoring F.format (length x.old / width F.format) a.now d.now x.old i (F.float e) }
    requires i_le_j { (i ≤ j) × (j < length d.now / width F.format) }
    requires both_small_if { BothSmallIf small F.format a.now d.now (i - 1) (j + 1) }
    ensures { Restoring F.format (length x.old / width F.format) a.now d.now x.new j (F.float result) }
{
    let mut e = e;
    for p in i..j {
        e = restore_pair(small, a, d, x, p, e);
    }
    e
}

// The last even sample that has an odd one after it, which is e, and what comes after: the ends, whose right neighbours are mirrored.
fn restore_end<F: Lifting>(a: &[u8], d: &[u8], x: &mut [u8], last: usize, e: F)
    requires lent { Lent F.format x.old a.now d.now }
    requires restoring { Restoring F.format (length x.old / width F.format) a.now d.now x.old last (F.float e) }
    requires last_value { last ≡ length d.now / width F.format - 1 }
    ensures { x.new ≡ back F.format Wavelet.Cdf53 a.now d.now }
{
    let y = get(false, d, last);
    put(false, x, 2 * last, e);
    if count::<F>(a) == last + 1 {
        put(false, x, 2 * last + 1, odd_sample(e, e, y));
    } else {
        let f = even_sample(y, y, get(false, a, last + 1));
        put(false, x, 2 * last + 1, odd_sample(e, f, y));
        put(false, x, 2 * (last + 1), f);
    }
}

// The samples whose approximations are in a and details in d, into x. A block that has a large float is read and written with tests.
fn restore_all<F: Look>(a: &[u8], d: &[u8], x: &mut [u8])
    requires { Lent F.format x.old a.now d.now }
    ensures { x.new ≡ back F.format Wavelet.Cdf53 a.now d.now }
{
    let last = count::<F>(d) - 1;
    let y: F = get(false, d, 0);
    let mut e = even_sample(y, y, get(false, a, 0));
    let mut i = 0;
    // No `step_by`, as in `split_all`.
    while i < last {
        let j = last.min(i + SPAN);
        let small = small_bands::<F>(a, d, i.saturating_sub(1), j + 1);
        e = restore_block(small, a, d, x, i, j, e);
        i = j;
    }
    restore_end(a, d, x, last, e);
}

// The samples whose approximations are in approx and details in details, into output. Where one of the first floats is large the schedule is the faster way.
pub fn inverse<F: Look>(approx: &[u8], details: &[u8], output: &mut [u8])
    requires { Lent F.format output.old approx.now details.now }
    ensures { output.new ≡ back F.format Wavelet.Cdf53 approx.now details.now }
{
    if small_bands::<F>(approx, details, 0, count::<F>(details).min(64)) {
        restore_all::<F>(approx, details, output);
        return;
    }
    cdf53f::inverse::<F>(approx, details, output);
}
