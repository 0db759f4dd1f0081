// One sample of a pyramid file, straight from its bytes: what opening would put at that place.
#![tactic(auto)]

mod neighbours;

ghost use Rattle.std.specs.Prelude.{◌≡◌, ◌^◌, ◌<◌, Err, IfOk, IfErr, length};
ghost use Rattle.base_answers.specs.Answers.{told};
ghost use Rattle.base_samples.specs.Integers.{val};
ghost use Rattle.file_sample.specs.Neighbours.{word_in, Stands};
ghost use Rattle.file_sample.specs.Peeks.{say_peek, peek_in, Peek};

use crate::neighbours::word_of;
use base_answers::err::{Answer, Refusal};
use base_samples::integers::Sample;
use base_signs::value;
use file_open::head::head_in;
use file_open::open::check_file;

// The answer, and the sample as a signed number: 0 where the call is refused.
#[repr(C)]
#[derive(Clone, Copy)]
pub struct PeekAnswer {
    pub answer: Answer,
    pub sample: i64,
}

// The number of sample j of the n that so many levels of sections from `at` on restore, w bytes each.
fn number_of(s: &[u8], w: usize, levels: usize, n: usize, at: usize, j: usize) -> i64
    requires stands { Stands w levels n at (length s.now) }
    requires j_lt_n { j < n }
    ensures { result ≡ val (256 ^ w) (word_in w s.now levels n at j) }
{
    let word = match w {
        1 => word_of::<u8>(s, levels, n, at, j).to_word(),
        2 => word_of::<u16>(s, levels, n, at, j).to_word(),
        _ => word_of::<u32>(s, levels, n, at, j).to_word(),
    };
    value(w, word)
}

// The sample at a place of what opening the file for the width and the point would give back.
#[tactic(auto, using(crate::proofs::Peeking::stopped))]
fn sample_at(s: &[u8], w: usize, p: usize, place: usize) -> Result<i64, Refusal>
    ensures sample { IfOk result (λ v. (say_peek s.now w p place ≡ told 0 0) × (v ≡ peek_in s.now w p place)) }
    ensures refused { IfErr result (λ e. say_peek s.now w p place ≡ Err e) }
{
    let (level, count) = check_file(s, w, p)?;
    if count <= place {
        return Err(Refusal::NoSuchPlace(place, count));
    }
    let h = head_in(s);
    Ok(number_of(s, w, h.levels - level, count, h.body, place))
}

// The same as the desk reads it.
#[tactic(auto, unfolding(crate::specs::Peeks::peek_in))]
pub fn peek(s: &[u8], w: usize, p: usize, place: usize) -> PeekAnswer
    ensures { Peek s.now w p place result }
{
    match sample_at(s, w, p, place) {
        Ok(sample) => PeekAnswer {
            answer: Answer::from(Ok(())),
            sample,
        },
        Err(e) => PeekAnswer {
            answer: Answer::from(e),
            sample: 0,
        },
    }
}
