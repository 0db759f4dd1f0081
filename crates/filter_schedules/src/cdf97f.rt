// Float 9/7, one level. Ported from osclet's src/cdf97f.rs: its dwt97_.. steps are in filter_floats/src/steps.rt, execute_forward and execute_inverse with their checks in levels_filter/src/filter.rt.
ghost use Rattle.std.specs.Prelude.{◌≡◌, map};
ghost use Rattle.filter_floats.specs.Filters.{factors_of, turned, steps97, back97};
ghost use Rattle.filter_floats.specs.Bands.{low, high, back};
ghost use Rattle.filter_floats.specs.Loops.{Lent};
ghost use Rattle.filter_floats.specs.Kinds.{kind_of, set_of};

use base_lengths::Wavelet;
use filter_floats::steps::{Factors, Lifting, Step, join, run, run_back, split};

// "Odds ALPHA, evens BETA, odds GAMMA, evens DELTA, scale (K, INV_K)."
#[tactic(auto, unfolding(filter_floats::specs::Filters::steps97))]
fn schedule<F: Lifting>(t: Factors<F>) -> [Step<F>; 5]
    ensures { map (kind_of F.float) result ≡ steps97 (set_of F.float t) }
{
    [
        Step::Odds(t.alpha),
        Step::Evens(t.beta),
        Step::Odds(t.gamma),
        Step::Evens(t.delta),
        Step::Scale(t.k, t.invk),
    ]
}

// The set with the signs of the four lifting factors changed, for the inverse.
#[tactic(auto, unfolding(filter_floats::specs::Filters::turned))]
pub fn turned<F: Lifting>(t: Factors<F>) -> Factors<F>
    ensures { set_of F.float result ≡ turned (set_of F.float t) }
{
    Factors {
        alpha: -t.alpha,
        beta: -t.beta,
        gamma: -t.gamma,
        delta: -t.delta,
        k: t.k,
        invk: t.invk,
    }
}

// "Scale (INV_K, K), then the four with signs changed, last first."
#[tactic(auto, unfolding(filter_floats::specs::Filters::back97))]
fn schedule_back<F: Lifting>(t: Factors<F>) -> [Step<F>; 5]
    ensures { map (kind_of F.float) result ≡ back97 (set_of F.float t) }
{
    [
        Step::Scale(t.invk, t.k),
        Step::Evens(t.delta),
        Step::Odds(t.gamma),
        Step::Evens(t.beta),
        Step::Odds(t.alpha),
    ]
}

// One level of the samples in input: approximations into approx, details into details.
pub fn forward<F: Lifting>(t: Factors<F>, input: &[u8], approx: &mut [u8], details: &mut [u8])
    requires t_value { set_of F.float t ≡ factors_of F.format }
    requires lent { Lent F.format input.now approx.old details.old }
    ensures { (approx.new ≡ low F.format Wavelet.Cdf97 input.now) × (details.new ≡ high F.format Wavelet.Cdf97 input.now) }
{
    split::<F>(input, approx, details);
    run(&schedule(t), approx, details);
}

// The samples whose approximations are in approx and details in details, into output.
pub fn inverse<F: Lifting>(t: Factors<F>, approx: &[u8], details: &[u8], output: &mut [u8])
    requires t_value { set_of F.float t ≡ turned (factors_of F.format) }
    requires lent { Lent F.format output.old approx.now details.now }
    ensures { output.new ≡ back F.format Wavelet.Cdf97 approx.now details.now }
{
    join::<F>(approx, details, output);
    run_back(&schedule_back(t), output);
}
