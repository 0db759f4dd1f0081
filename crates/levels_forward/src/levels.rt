// `multi_dwt`: the checks, and then the bands without counts.
ghost use Rattle.std.specs.Prelude.{◌≡◌};
ghost use Rattle.base_answers.specs.Answers.{answer_of, plain};
ghost use Rattle.base_answers.specs.Checks.{passes};
ghost use Rattle.levels_filter.specs.Calls.{multi_checks, say_multi, Multi};

use crate::bands::lay_bands;
use base_answers::err::Refusal;
use base_lengths::at_least_one;
use base_lengths::checks::{check_one, check_whole};
use levels_filter::filter::{Filter, width};
use levels_filter::levels::{check_depth, check_room};

// By samples: n of the signal, m of the output, u and v of the work areas.
fn multi_lengths(
    f: Filter,
    levels: usize,
    n: usize,
    m: usize,
    u: usize,
    v: usize,
) -> Result<(), Refusal>
    ensures { result ≡ passes (multi_checks f levels n m u v) }
{
    check_depth(f, levels, n)?;
    check_room(n, m, u, v)
}

// What `multi_dwt` says, by byte lengths.
#[tactic(auto, unfolding(levels_filter::specs::Calls::say_multi))]
fn check_multi(
    f: Filter,
    levels: usize,
    signal: usize,
    out: usize,
    one: usize,
    two: usize,
) -> Result<(), Refusal>
    ensures { plain result ≡ say_multi f levels signal out one two }
{
    let k = width(f);
    check_whole(k, signal, out, one)?;
    check_one(k, two)?;
    multi_lengths(f, levels, signal / k, out / k, one / k, two / k)
}

// Deepest approximations, then details deepest first.
#[tactic(auto, unfolding(base_answers::specs::Checks::Spared))]
pub fn multi_dwt(
    f: Filter,
    levels: usize,
    signal: &[u8],
    out: &mut [u8],
    one: &mut [u8],
    two: &mut [u8],
) -> Result<(), Refusal>
    ensures { Multi f levels signal.now out.old one.old two.old (answer_of (plain result)) out.new one.new two.new }
{
    check_multi(f, levels, signal.len(), out.len(), one.len(), two.len())?;
    let n = signal.len() / width(f);
    lay_bands(f, false, at_least_one(levels), n, signal, out, one, two);
    Ok(())
}
