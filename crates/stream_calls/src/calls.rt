// The two calls: a piece, and the end.
ghost use Rattle.std.specs.Prelude.{◌++◌, ◌≡◌, ◌-◌, ◌≤◌, length};
ghost use Rattle.base_answers.specs.Answers.{answer_of, plain};
ghost use Rattle.base_answers.specs.Checks.{in_front};
ghost use Rattle.base_lengths.specs.Lengths.{approx_length, details_length};
ghost use Rattle.filter_cdf53i.specs.Bands.{low, high, EnoughWords};
ghost use Rattle.stream_pieces.specs.States.{fixed, state_of, Possible, stand_in, fixed_by, rest_of};
ghost use Rattle.stream_pieces.specs.Steps.{newly, Taking};
ghost use Rattle.stream_calls.specs.StateBytes.{state_size, state_bytes, state_in};
ghost use Rattle.stream_calls.specs.Calls.{Piece, fresh, Finish};

use crate::bands::advance;
use crate::checks::{check_finish, check_piece};
use crate::state::{read, write};
use base_answers::err::Refusal;
use base_lengths::{approx_length, details_length};
use base_samples::integers::{Sample, count};
use stream_pieces::borders::rest;
use stream_pieces::recorder::fixed;

// The piece's new coefficients to the front of the areas, and the state after it.
fn take_piece<S: Sample>(state: &mut [u8], y: &[u8], a: &mut [u8], d: &mut [u8])
    requires { let s = state_in state.old in (length state.old ≡ state_size) × Taking S.bytes s y.now × EnoughWords S.bytes (newly S.bytes s y.now) a.old × EnoughWords S.bytes (newly S.bytes s y.now) d.old }
    ensures state_after { state.new ≡ state_bytes (state_of S.bytes (stand_in S.bytes (state_in state.old) ++ y.now)) }
    ensures a_after { a.new ≡ in_front (fixed_by low S.bytes (state_in state.old) y.now) a.old }
    ensures d_after { d.new ≡ in_front (fixed_by high S.bytes (state_in state.old) y.now) d.old }
{
    let s = read(state);
    let t = s.total as usize;
    let new = S::bytes() * (fixed(t + count::<S>(y)) - fixed(t));
    let after = advance::<S>(s, y, &mut a[..new], &mut d[..new]);
    write(state, after);
}

// A piece of a recording of samples of one type.
pub fn piece<S: Sample>(
    state: &mut [u8],
    y: &[u8],
    a: &mut [u8],
    d: &mut [u8],
) -> Result<(), Refusal>
    ensures { Piece S.bytes state.old y.now a.old d.old (answer_of (plain result)) state.new a.new d.new }
{
    check_piece::<S>(state, y.len(), a.len(), d.len())?;
    take_piece::<S>(state, y, a, d);
    Ok(())
}

// What is left of both bands to the front of the areas, and a fresh state.
#[tactic(auto, unfolding(crate::specs::Calls::fresh))]
fn take_end<S: Sample>(state: &mut [u8], a: &mut [u8], d: &mut [u8])
    requires { let s = state_in state.old in let m = fixed s.total in (length state.old ≡ state_size) × Possible S.bytes s × (3 ≤ s.total) × EnoughWords S.bytes (approx_length s.total - m) a.old × EnoughWords S.bytes (details_length s.total - m) d.old }
    ensures state_after { state.new ≡ fresh }
    ensures a_after { a.new ≡ in_front (rest_of low approx_length S.bytes (state_in state.old)) a.old }
    ensures d_after { d.new ≡ in_front (rest_of high details_length S.bytes (state_in state.old)) d.old }
{
    let s = read(state);
    let t = s.total as usize;
    let m = fixed(t);
    let lows = S::bytes() * (approx_length(t) - m);
    let highs = S::bytes() * (details_length(t) - m);
    rest::<S>(s, &mut a[..lows], &mut d[..highs]);
    state.fill(0);
}

// The end of a recording.
pub fn finish<S: Sample>(state: &mut [u8], a: &mut [u8], d: &mut [u8]) -> Result<(), Refusal>
    ensures { Finish S.bytes state.old a.old d.old (answer_of (plain result)) state.new a.new d.new }
{
    check_finish::<S>(state, a.len(), d.len())?;
    take_end::<S>(state, a, d);
    Ok(())
}
