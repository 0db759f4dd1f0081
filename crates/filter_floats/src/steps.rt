// The steps: on two bands, as the forward call runs them, and on both bands in one list, as the inverse does. Once over f32 and f64.
ghost use Rattle.std.specs.Prelude.{false, ◌≡◌, [], ◌∷◌, map, ◌/◌, ◌<◌, length};
ghost use Rattle.std.specs.Float.{nan};
ghost use Rattle.std.specs.Float.Ieee.{mul};
ghost use Rattle.base_samples.specs.Halves.{even_of, odd_of, joined};
ghost use Rattle.base_samples.specs.Floats.{width, float_at, put_float, decode_floats, encode_floats, Plain};
ghost use Rattle.filter_floats.specs.Steps.{odds, evens, lift, scaled};
ghost use Rattle.filter_floats.specs.Filters.{decimal, factors_of};
ghost use Rattle.filter_floats.specs.Loops.{Lent, Stored, StoredBands, Ran};
ghost use Rattle.filter_floats.specs.Lanes.{lane, scaled_lanes, Lanes, RanOn};
ghost use Rattle.filter_floats.specs.Kinds.{kind_of, set_of};

use crate::mla::fmla;
use base_samples::floats::{Real, copy, count, get_plain, put};

// A step, with its factors. A value and no closure: document 01 gives a filter as a list of steps, and `Ran` and `RanOn` are about that list.
#[derive(Clone, Copy)]
pub enum Step<F> {
    Odds(F),
    Evens(F),
    Scale(F, F),
}

// The six factors of 9/7, which travel together as one set.
#[derive(Clone, Copy)]
pub struct Factors<F> {
    pub alpha: F,
    pub beta: F,
    pub gamma: F,
    pub delta: F,
    pub k: F,
    pub invk: F,
}

// The numbers of the schedules.
pub trait Lifting: Real {
    fn half() -> Self
        ensures { Self.float result ≡ decimal Self.format false 5 1 };

    fn quarter() -> Self
        ensures { Self.float result ≡ decimal Self.format false 25 2 };

    fn factors() -> Factors<Self>
        ensures { set_of Self.float result ≡ factors_of Self.format };
}

// Written out twice: a literal has one type, and `rt verdict` takes no impl that a macro writes.
impl Lifting for f32 {
    fn half() -> f32 {
        0.5
    }

    fn quarter() -> f32 {
        0.25
    }

    fn factors() -> Factors<f32> {
        Factors {
            alpha: -1.5861343420693648,
            beta: -0.0529801185718856,
            gamma: 0.8829110755411875,
            delta: 0.4435068520511142,
            k: 1.1496043988602418,
            invk: 0.86986445162478079,
        }
    }
}

impl Lifting for f64 {
    fn half() -> f64 {
        0.5
    }

    fn quarter() -> f64 {
        0.25
    }

    fn factors() -> Factors<f64> {
        Factors {
            alpha: -1.5861343420693648,
            beta: -0.0529801185718856,
            gamma: 0.8829110755411875,
            delta: 0.4435068520511142,
            k: 1.1496043988602418,
            invk: 0.86986445162478079,
        }
    }
}

// The evens of the samples in x, into a, and the odds, into d.
pub fn split<F: Real>(x: &[u8], a: &mut [u8], d: &mut [u8])
    requires { Lent F.format x.now a.old d.old }
    ensures a_after { a.new ≡ encode_floats F.format (even_of nan (decode_floats F.format x.now)) }
    ensures d_after { d.new ≡ encode_floats F.format (odd_of nan (decode_floats F.format x.now)) }
{
    let n = count::<F>(x);
    let m = n / 2;
    for i in 0..m {
        copy::<F>(a, i, x, 2 * i);
        copy::<F>(d, i, x, 2 * i + 1);
    }
    if n % 2 == 1 {
        copy::<F>(a, m, x, 2 * m);
    }
}

// Float i of s from its neighbours.
#[tactic(auto, unfolding(crate::specs::Steps::lift))]
fn lift_at<F: Real>(s: &mut [u8], i: usize, left: F, right: F, c: F)
    requires i_in_bounds { i < length s.old / width F.format }
    requires plain { Plain F.format s.old i }
    ensures { s.new ≡ put_float F.format s.old i (lift F.format (F.float c) (F.float left) (F.float right) (float_at F.format s.old i)) }
{
    let x: F = get_plain(s, i);
    put(s, i, fmla(left + right, c, x));
}

// "Odds c": each detail from the approximations on either side. The mirrored end stays out of the loop, so that LLVM takes several floats at a time.
fn dwt97_forward_update_odd<F: Real>(a: &[u8], d: &mut [u8], c: F)
    requires { StoredBands F.format a.now d.old }
    ensures { d.new ≡ encode_floats F.format (odds (lift F.format (F.float c)) nan (decode_floats F.format a.now) (decode_floats F.format d.old)) }
{
    let na = count::<F>(a);
    let last = count::<F>(d) - 1;
    for i in 0..last {
        let left: F = get_plain(a, i);
        let right = get_plain(a, i + 1);
        lift_at(d, i, left, right, c);
    }
    let left: F = get_plain(a, last);
    let right = get_plain(a, na - 1);
    lift_at(d, last, left, right, c);
}

// "Evens c": each approximation from the details on either side. The right neighbour is the next left one, so that the first place needs no turn of its own.
fn dwt97_forward_update_even<F: Real>(a: &mut [u8], d: &[u8], c: F)
    requires { StoredBands F.format a.old d.now }
    ensures { a.new ≡ encode_floats F.format (evens (lift F.format (F.float c)) nan (decode_floats F.format a.old) (decode_floats F.format d.now)) }
{
    let na = count::<F>(a);
    let nd = count::<F>(d);
    let mut left: F = get_plain(d, 0);
    for i in 0..nd {
        let right = get_plain(d, i);
        lift_at(a, i, left, right, c);
        left = right;
    }
    if nd < na {
        lift_at(a, nd, left, left, c);
    }
}

// Float i of s times k.
fn scale_at<F: Real>(s: &mut [u8], i: usize, k: F)
    requires i_in_bounds { i < length s.old / width F.format }
    requires plain { Plain F.format s.old i }
    ensures { s.new ≡ put_float F.format s.old i (mul F.format (float_at F.format s.old i) (F.float k)) }
{
    let x: F = get_plain(s, i);
    put(s, i, x * k);
}

// Each float of a band times k.
#[tactic(auto, using(crate::proofs::BandTurns::scaled_turns))]
fn dwt97_scale<F: Real>(s: &mut [u8], k: F)
    requires { Stored F.format (length s.old / width F.format) s.old }
    ensures { s.new ≡ encode_floats F.format (scaled F.format (F.float k) (decode_floats F.format s.old)) }
{
    for i in 0..count::<F>(s) {
        scale_at(s, i, k);
    }
}

// One step on the two bands.
fn apply<F: Real>(step: Step<F>, a: &mut [u8], d: &mut [u8])
    requires { StoredBands F.format a.old d.old }
    ensures { Ran F.format (kind_of F.float step ∷ []) a.old d.old a.new d.new }
{
    match step {
        Step::Odds(c) => dwt97_forward_update_odd(a, d, c),
        Step::Evens(c) => dwt97_forward_update_even(a, d, c),
        Step::Scale(k, l) => {
            dwt97_scale(a, k);
            dwt97_scale(d, l);
        }
    }
}

// A schedule on the two bands.
pub fn run<F: Real>(schedule: &[Step<F>], a: &mut [u8], d: &mut [u8])
    requires { StoredBands F.format a.old d.old }
    ensures { Ran F.format (map (kind_of F.float) schedule.now) a.old d.old a.new d.new }
{
    for step in schedule {
        apply(*step, a, d);
    }
}

// The approximations in a and the details in d, one of each in turn, into x.
pub fn join<F: Real>(a: &[u8], d: &[u8], x: &mut [u8])
    requires { Lent F.format x.old a.now d.now }
    ensures { x.new ≡ encode_floats F.format (joined nan (decode_floats F.format a.now) (decode_floats F.format d.now)) }
{
    let n = count::<F>(x);
    let m = n / 2;
    for i in 0..m {
        copy::<F>(x, 2 * i, a, i);
        copy::<F>(x, 2 * i + 1, d, i);
    }
    if n % 2 == 1 {
        copy::<F>(x, 2 * m, a, m);
    }
}

// A lifting step where both bands stand in x: the places start, start + 2, .., each from its neighbours, which are of the other band.
fn lift_lane<F: Real>(x: &mut [u8], start: usize, c: F)
    requires lanes { Lanes F.format x.old }
    requires start_bound { start < 2 }
    ensures { x.new ≡ encode_floats F.format (lane F.format (F.float c) start (decode_floats F.format x.old)) }
{
    let n = count::<F>(x);
    let span = n - start;
    let mut left: F = get_plain(x, 1 - start);
    for i in 0..span / 2 {
        let j = start + 2 * i;
        let right = get_plain(x, j + 1);
        lift_at(x, j, left, right, c);
        left = right;
    }
    if span % 2 == 1 {
        lift_at(x, n - 1, left, left, c);
    }
}

// A scaling where both bands stand in x.
fn scale_lanes<F: Real>(x: &mut [u8], k: F, l: F)
    requires { Lanes F.format x.old }
    ensures { x.new ≡ encode_floats F.format (scaled_lanes F.format (F.float k) (F.float l) (decode_floats F.format x.old)) }
{
    let n = count::<F>(x);
    let m = n / 2;
    for i in 0..m {
        scale_at(x, 2 * i, k);
        scale_at(x, 2 * i + 1, l);
    }
    if n % 2 == 1 {
        scale_at(x, 2 * m, k);
    }
}

// One step where both bands stand in x.
#[tactic(auto, using(crate::proofs::RunsOn::ran_on_steps))]
fn apply_back<F: Real>(step: Step<F>, x: &mut [u8])
    requires { Lanes F.format x.old }
    ensures { RanOn F.format (kind_of F.float step ∷ []) x.old x.new }
{
    match step {
        Step::Odds(c) => lift_lane(x, 1, c),
        Step::Evens(c) => lift_lane(x, 0, c),
        Step::Scale(k, l) => scale_lanes(x, k, l),
    }
}

// A schedule where both bands stand in x.
pub fn run_back<F: Real>(schedule: &[Step<F>], x: &mut [u8])
    requires { Lanes F.format x.old }
    ensures { RanOn F.format (map (kind_of F.float) schedule.now) x.old x.new }
{
    for step in schedule {
        apply_back(*step, x);
    }
}
