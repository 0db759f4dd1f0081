// A block of turns of 9/7 in rows of floats, and its three lifting steps.
ghost use Rattle.std.specs.Prelude.{◌≡◌, map, ◌+◌, ◌≤◌, ◌<◌, length, get_or};
ghost use Rattle.std.specs.Float.{nan};
ghost use Rattle.filter_small.specs.Pieces.{Stepped, Rooms};

use crate::lift::lift;
use base_samples::floats::Real;

// The turns that a block of 9/7 has at most; its rows have an entry more. The contracts say 256.
pub const BLOCK: usize = 256;

// What a block of turns of 9/7 hands to the next: an entry after each of three lifting steps.
#[derive(Clone, Copy)]
pub struct Carry<F> {
    pub one: F,
    pub two: F,
    pub three: F,
}

// A block's floats: y and z are what it reads, u, v and w what the three steps make of them.
// What is made stands before what it is made of: at f64 a step would else write a little over 4096 bytes after what it reads next, and a processor waits there.
#[derive(Drop)]
pub struct Rows<F> {
    pub w: [F; BLOCK + 1],
    pub v: [F; BLOCK + 1],
    pub u: [F; BLOCK + 1],
    pub y: [F; BLOCK + 1],
    pub z: [F; BLOCK + 1],
}

// Zeros, for a block to write over. By a constant, since LLVM then sets them all at once; those of a parameter it would copy several times.
impl<F: Copy + Default> Default for Rows<F> {
    fn default() -> Rows<F> {
        Rows {
            w: [F::default(); BLOCK + 1],
            v: [F::default(); BLOCK + 1],
            u: [F::default(); BLOCK + 1],
            y: [F::default(); BLOCK + 1],
            z: [F::default(); BLOCK + 1],
        }
    }
}

// Entry n of three lists.
pub fn carry_at<F: Real>(u: &[F], v: &[F], w: &[F], n: usize) -> Carry<F>
    requires { (n < length u.now) × (n < length v.now) × (n < length w.now) }
    ensures one { F.float result.one ≡ get_or (map F.float u.now) n nan }
    ensures two { F.float result.two ≡ get_or (map F.float v.now) n nan }
    ensures three { F.float result.three ≡ get_or (map F.float w.now) n nan }
{
    Carry {
        one: u[n],
        two: v[n],
        three: w[n],
    }
}

// Entries 0 to n of r: e, then what a lifting step by c makes of two neighbours in p and of an entry of q.
fn step<F: Real>(c: F, e: F, p: &[F], q: &[F], r: &mut [F], n: usize)
    requires { (n < length p.now) × (n ≤ length q.now) × (n < length r.old) }
    ensures { Stepped F.format (F.float c) (map F.float p.now) (map F.float q.now) n (F.float e) (map F.float r.old) (map F.float r.new) }
{
    r[0] = e;
    for j in 0..n {
        r[j + 1] = lift(p[j], p[j + 1], c, q[j]);
    }
}

// Three steps, one after the other: into u of y and z, into v of u and y, into w of v and u. They start with the entries s, and the last ones are returned.
pub fn steps<F: Real>(
    b: F,
    c: F,
    d: F,
    y: &[F],
    z: &[F],
    u: &mut [F],
    v: &mut [F],
    w: &mut [F],
    n: usize,
    s: Carry<F>,
) -> Carry<F>
    requires { Rooms (n + 1) y.now z.now u.old v.old w.old }
    ensures stepped { Stepped F.format (F.float b) (map F.float y.now) (map F.float z.now) n (F.float s.one) (map F.float u.old) (map F.float u.new) × (F.float result.one ≡ get_or (map F.float u.new) n nan) }
    ensures stepped_2 { Stepped F.format (F.float c) (map F.float u.new) (map F.float y.now) n (F.float s.two) (map F.float v.old) (map F.float v.new) × (F.float result.two ≡ get_or (map F.float v.new) n nan) }
    ensures stepped_3 { Stepped F.format (F.float d) (map F.float v.new) (map F.float u.new) n (F.float s.three) (map F.float w.old) (map F.float w.new) × (F.float result.three ≡ get_or (map F.float w.new) n nan) }
{
    step(b, s.one, y, z, u, n);
    step(c, s.two, u, y, v, n);
    step(d, s.three, v, u, w, n);
    carry_at(u, v, w, n)
}

impl<F: Real> Rows<F> {
    // Entry n of the rows that the steps make.
    pub fn carry_at(&self, n: usize) -> Carry<F>
        requires { n ≤ 256 }
        ensures one { F.float result.one ≡ get_or (map F.float self.now.u) n nan }
        ensures two { F.float result.two ≡ get_or (map F.float self.now.v) n nan }
        ensures three { F.float result.three ≡ get_or (map F.float self.now.w) n nan }
    {
        carry_at(&self.u, &self.v, &self.w, n)
    }

    // The three steps of a block of n turns; what it reads stays.
    pub fn steps(&mut self, b: F, c: F, d: F, n: usize, s: Carry<F>) -> Carry<F>
        requires { n ≤ 256 }
        ensures read { (self.new.y ≡ self.old.y) × (self.new.z ≡ self.old.z) }
        ensures stepped { Stepped F.format (F.float b) (map F.float self.new.y) (map F.float self.new.z) n (F.float s.one) (map F.float self.old.u) (map F.float self.new.u) × (F.float result.one ≡ get_or (map F.float self.new.u) n nan) }
        ensures stepped_2 { Stepped F.format (F.float c) (map F.float self.new.u) (map F.float self.new.y) n (F.float s.two) (map F.float self.old.v) (map F.float self.new.v) × (F.float result.two ≡ get_or (map F.float self.new.v) n nan) }
        ensures stepped_3 { Stepped F.format (F.float d) (map F.float self.new.v) (map F.float self.new.u) n (F.float s.three) (map F.float self.old.w) (map F.float self.new.w) × (F.float result.three ≡ get_or (map F.float self.new.w) n nan) }
    {
        steps(
            b,
            c,
            d,
            &self.y,
            &self.z,
            &mut self.u,
            &mut self.v,
            &mut self.w,
            n,
            s,
        )
    }
}
