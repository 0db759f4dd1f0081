// The steps of 5/3 on one float, between two neighbours.
ghost use Rattle.std.specs.Prelude.{true, false, ◌≡◌};
ghost use Rattle.filter_floats.specs.Filters.{decimal};
ghost use Rattle.filter_floats.specs.Steps.{lift};

use filter_floats::steps::Lifting;
use filter_small::lift::lift;

// Forward, "odds -0.5": the detail of an odd sample.
pub fn detail<F: Lifting>(left: F, right: F, odd: F) -> F
    ensures { F.float result ≡ lift F.format (decimal F.format true 5 1) (F.float left) (F.float right) (F.float odd) }
{
    lift(left, right, -F::half(), odd)
}

// "Evens 0.25": the approximation of an even sample.
pub fn approximation<F: Lifting>(left: F, right: F, even: F) -> F
    ensures { F.float result ≡ lift F.format (decimal F.format false 25 2) (F.float left) (F.float right) (F.float even) }
{
    lift(left, right, F::quarter(), even)
}

// Back, "evens -0.25": the even sample of an approximation.
pub fn even_sample<F: Lifting>(left: F, right: F, approx: F) -> F
    ensures { F.float result ≡ lift F.format (decimal F.format true 25 2) (F.float left) (F.float right) (F.float approx) }
{
    lift(left, right, -F::quarter(), approx)
}

// "Odds 0.5": the odd sample of a detail.
pub fn odd_sample<F: Lifting>(left: F, right: F, detail: F) -> F
    ensures { F.float result ≡ lift F.format (decimal F.format false 5 1) (F.float left) (F.float right) (F.float detail) }
{
    lift(left, right, F::half(), detail)
}
