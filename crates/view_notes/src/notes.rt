// Notes stand at samples, drawn columns at coefficients. Document 01, "Notes and their spans"; document 02, C-13.
ghost use Rattle.std.specs.Prelude.{◌≡◌, ◌+◌, ◌^◌, ◌<◌, OnOk};
ghost use Rattle.base_answers.specs.Checks.{passes};
ghost use Rattle.view_spans.specs.Spans.{reach_of, clipped_ends, span_of, band_count};
ghost use Rattle.view_notes.specs.Notes.{column_of, level_checks, say_column, say_span, Drawn};

use base_answers::err::{Outcome, Refusal};
use base_lengths::{MOST_SAMPLES, Wavelet, count_at, depth, details_length};
use view_spans::Band;

// Two kinds of number, which only `column` and `span`, by `clipped`, turn into each other.
#[derive(Clone, Copy)]
pub struct SampleNumber(pub usize);

#[derive(Clone, Copy)]
pub struct CoefficientNumber(pub usize);

// The first and the last sample of a span.
#[derive(Clone, Copy)]
pub struct SpanEnds {
    pub first: SampleNumber,
    pub last: SampleNumber,
}

// How many samples show at one approximation of a level; at the last one there may be fewer.
fn samples_each(level: usize) -> usize
    requires { level < 64 }
    ensures { result ≡ 2 ^ level }
{
    1 << level
}

// The approximation at which a sample shows.
pub fn column(level: usize, s: SampleNumber) -> CoefficientNumber
    requires { level < 64 }
    ensures { result.0 ≡ column_of level s.0 }
{
    CoefficientNumber(s.0 >> level)
}

// How far an approximation of a level reads on either side of where it stands.
fn reach(level: usize) -> usize
    requires { level < 63 }
    ensures { result ≡ reach_of level }
{
    samples_each(level + 1).saturating_sub(2)
}

// From one sample to another, and so far on either side of both, but no further than the n samples go.
fn clipped(n: usize, from: usize, to: usize, far: usize) -> SpanEnds
    requires n_nonzero { 0 < n }
    requires far_bound { to + far < 2 ^ 64 }
    ensures { (result.first.0 ≡ (clipped_ends n from to far).0) × (result.last.0 ≡ (clipped_ends n from to far).1) }
{
    SpanEnds {
        first: SampleNumber(from.saturating_sub(far)),
        last: SampleNumber((to + far).min(n - 1)),
    }
}

// The samples that a coefficient spans: no other sample can change it.
#[tactic(auto, using(crate::proofs::Answered::few_levels, crate::proofs::Spans::reach_is, crate::proofs::Answered::stands), unfolding(view_spans::specs::Spans::span_of))]
pub fn span(b: Band, n: usize, level: usize, p: CoefficientNumber) -> SpanEnds
    requires drawn { Drawn n level }
    requires p_bound { p.0 < band_count b level n }
    ensures { (result.first.0 ≡ (span_of b n level p.0).0) × (result.last.0 ≡ (span_of b n level p.0).1) }
{
    let each = samples_each(level);
    let from = p.0 * each;
    match b {
        Band::Approx => clipped(n, from, from, reach(level)),
        Band::Details => clipped(n, from, from + each, reach(level - 1)),
    }
}

// How many coefficients a band of a level has.
fn band_count(b: Band, level: usize, n: usize) -> usize
    requires { 0 < level }
    ensures { result ≡ band_count b level n }
{
    match b {
        Band::Approx => count_at(level, n),
        Band::Details => details_length(count_at(level - 1, n)),
    }
}

// A level of a recording, from 1 to its depth.
#[tactic(auto, using(crate::proofs::Answered::within_depth))]
fn check_level(n: usize, level: usize) -> Result<(), Refusal>
    ensures said { result ≡ passes (level_checks n level) }
    ensures drawn { OnOk result (Drawn n level) }
{
    if MOST_SAMPLES < n {
        return Err(Refusal::TooLong);
    }
    let deepest = depth(Wavelet::Cdf53, n);
    if level == 0 || deepest < level {
        return Err(Refusal::NoSuchPlace(level, deepest));
    }
    Ok(())
}

// The column of a sample, as the desk asks for it: the level first, then the sample.
#[tactic(auto, using(crate::proofs::Answered::few_levels), unfolding(crate::specs::Notes::say_column))]
pub fn note_column(n: usize, level: usize, s: SampleNumber) -> Outcome
    ensures { result ≡ say_column n level s.0 }
{
    check_level(n, level)?;
    if n <= s.0 {
        return Err(Refusal::NoSuchPlace(s.0, n));
    }
    Ok((column(level, s).0, 0))
}

// The span of a coefficient, as the desk asks for it; its band is counted only at a level that is there, so that the count is short.
#[tactic(auto, unfolding(crate::specs::Notes::say_span))]
pub fn note_span(b: Band, n: usize, level: usize, p: CoefficientNumber) -> Outcome
    ensures { result ≡ say_span b n level p.0 }
{
    check_level(n, level)?;
    let limit = band_count(b, level, n);
    if limit <= p.0 {
        return Err(Refusal::NoSuchPlace(p.0, limit));
    }
    let s = span(b, n, level, p);
    Ok((s.first.0, s.last.0))
}
