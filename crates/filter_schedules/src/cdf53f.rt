// Float 5/3, one level. Ported from osclet's src/cdf53f.rs: its steps are in filter_floats/src/steps.rt, execute_forward and execute_inverse with their checks in levels_filter/src/filter.rt.
ghost use Rattle.std.specs.Prelude.{◌≡◌, map};
ghost use Rattle.filter_floats.specs.Filters.{steps53, back53};
ghost use Rattle.filter_floats.specs.Bands.{low, high, back};
ghost use Rattle.filter_floats.specs.Loops.{Lent};
ghost use Rattle.filter_floats.specs.Kinds.{kind_of};

use base_lengths::Wavelet;
use filter_floats::steps::{Lifting, Step, join, run, run_back, split};

// "Odds -0.5, evens 0.25."
fn schedule<F: Lifting>() -> [Step<F>; 2]
    ensures { map (kind_of F.float) result ≡ steps53 F.format }
{
    [Step::Odds(-F::half()), Step::Evens(F::quarter())]
}

// "Inverse: evens -0.25, odds 0.5."
fn schedule_back<F: Lifting>() -> [Step<F>; 2]
    ensures { map (kind_of F.float) result ≡ back53 F.format }
{
    [Step::Evens(-F::quarter()), Step::Odds(F::half())]
}

// One level of the samples in input: approximations into approx, details into details.
pub fn forward<F: Lifting>(input: &[u8], approx: &mut [u8], details: &mut [u8])
    requires { Lent F.format input.now approx.old details.old }
    ensures { (approx.new ≡ low F.format Wavelet.Cdf53 input.now) × (details.new ≡ high F.format Wavelet.Cdf53 input.now) }
{
    split::<F>(input, approx, details);
    run::<F>(&schedule(), approx, details);
}

// The samples whose approximations are in approx and details in details, into output.
pub fn inverse<F: Lifting>(approx: &[u8], details: &[u8], output: &mut [u8])
    requires { Lent F.format output.old approx.now details.now }
    ensures { output.new ≡ back F.format Wavelet.Cdf53 approx.now details.now }
{
    join::<F>(approx, details, output);
    run_back::<F>(&schedule_back(), output);
}
