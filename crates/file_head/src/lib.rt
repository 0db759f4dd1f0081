// What a pyramid file says of itself, and how many bytes one will have.
#![tactic(auto)]

ghost use Rattle.std.specs.Prelude.{◌≡◌};
ghost use Rattle.file_head.specs.Heads.{say_size, Told};

use base_answers::err::{Answer, Outcome, Refusal};
use base_lengths::at_least_one;
use file_open::head::{head_in, rate_in};
use file_open::open::{check_start, filter_of, is_width};
use file_open::size::file_size;
use levels_filter::levels::check_depth;

// The answer, and what section 0 says as it is stored: zeros where the call is refused. An old file has no rate, 0.
#[repr(C)]
#[derive(Clone, Copy)]
pub struct HeadAnswer {
    pub answer: Answer,
    pub width: u32,
    pub levels: u32,
    pub samples: u32,
    pub point: u32,
    pub rate: u32,
}

// What section 0 of a file, or of the front of one, says. No field is held against another.
#[tactic(auto, unfolding(crate::specs::Heads::say_head))]
pub fn head(s: &[u8]) -> HeadAnswer
    ensures { Told s.now result }
{
    if let Err(e) = check_start(s) {
        return HeadAnswer {
            answer: Answer::from(e),
            width: 0,
            levels: 0,
            samples: 0,
            point: 0,
            rate: 0,
        };
    }
    let h = head_in(s);
    HeadAnswer {
        answer: Answer::from(Ok(())),
        width: h.width as u32,
        levels: h.levels as u32,
        samples: h.samples as u32,
        point: h.point as u32,
        rate: rate_in(s),
    }
}

// How many bytes the file of n samples of w bytes will have, or what writing it is refused with for n and the levels.
#[tactic(auto, using(file_open::proofs::Writing::levels_few, file_open::proofs::Opening::filters), unfolding(crate::specs::Heads::say_size))]
pub fn size(w: usize, n: usize, levels: usize) -> Outcome
    ensures { result ≡ say_size w n levels }
{
    if !is_width(w) {
        return Err(Refusal::OtherWidth(0, w));
    }
    let f = filter_of(w);
    check_depth(f, levels, n)?;
    Ok((file_size(f, at_least_one(levels), n), 0))
}
