// Multiply, then add, each rounded once. Ported from osclet's src/mla.rs, in its form that does not fuse.
ghost use Rattle.std.specs.Prelude.{◌≡◌};
ghost use Rattle.std.specs.Float.Ieee.{add, mul};

use base_samples::floats::Real;

pub fn fmla<F: Real>(a: F, b: F, c: F) -> F
    ensures { F.float result ≡ add F.format (mul F.format (F.float a) (F.float b)) (F.float c) }
{
    a * b + c
}
