// Where a piece begins and where the recording ends: the coefficients that read what is kept, and the last detail, which is kept next. Once over the sample.
ghost use Rattle.std.specs.Prelude.{cond, ◌≡◌, ◌-◌, ◌/◌, ◌≤◌, ◌<◌, ltb, eqb, length};
ghost use Rattle.base_lengths.specs.Lengths.{approx_length, details_length};
ghost use Rattle.base_samples.specs.Words.{word_at, Holds, Front};
ghost use Rattle.filter_cdf53i.specs.Bands.{low, high};
ghost use Rattle.stream_pieces.specs.States.{fixed, Possible, rest_of};
ghost use Rattle.stream_pieces.specs.Steps.{next_word, next_detail, next_approx, newly, Taking};

use crate::recorder::{Recorder, waiting};
use base_samples::integers::{Sample, count};
use filter_cdf53i::steps::{approx_of, detail_of};

// Sample j from the first one that waits on, and 0 past the end of the piece.
pub fn word_of<S: Sample>(s: Recorder, y: &[u8], j: usize) -> S
    requires { Taking S.bytes s y.now }
    ensures { S.word result ≡ next_word S.bytes s y.now j }
{
    let w = waiting(s.total as usize);
    if j < w {
        if j == 0 {
            S::of_word(s.even)
        } else {
            S::of_word(s.odd)
        }
    } else if j - w < count::<S>(y) {
        S::get(y, j - w)
    } else {
        S::of_word(0)
    }
}

// The detail before the first new one: the last that was written, or the new one itself at the start of a recording.
fn detail_before(s: Recorder, new: u32) -> u32
    ensures { result ≡ cond (ltb s.total 3) new s.detail }
{
    if s.total < 3 { new } else { s.detail }
}

// The first new coefficient of each band: it reads what waits.
pub fn first<S: Sample>(s: Recorder, y: &[u8], a: &mut [u8], d: &mut [u8])
    requires taking { Taking S.bytes s y.now × (0 < newly S.bytes s y.now) }
    requires holds { Holds S.bytes (newly S.bytes s y.now) a.old × Holds S.bytes (newly S.bytes s y.now) d.old }
    ensures front { Front S.bytes (newly S.bytes s y.now) 1 (next_approx S.bytes s y.now) a.new }
    ensures front_2 { Front S.bytes (newly S.bytes s y.now) 1 (next_detail S.bytes s y.now) d.new }
{
    let e = word_of::<S>(s, y, 0);
    let h = detail_of(e, word_of::<S>(s, y, 1), word_of::<S>(s, y, 2));
    S::put(d, 0, h);
    let before = S::of_word(detail_before(s, h.to_word()));
    S::put(a, 0, approx_of(e, before, h));
}

// The last detail that is written: the last of the new ones in d, and where there are none the one before.
pub fn last_detail<S: Sample>(s: Recorder, d: &[u8]) -> u32
    ensures { result ≡ cond (eqb (length d.now / S.bytes) 0) s.detail (word_at S.bytes d.now (length d.now / S.bytes - 1)) }
{
    let n = count::<S>(d);
    if n == 0 {
        s.detail
    } else {
        S::get(d, n - 1).to_word()
    }
}

// What is left at the end: the last approximation, and where an odd sample waits its detail. No even sample comes after that one, so the one before it is read twice: the mirrored end.
pub fn rest<S: Sample>(s: Recorder, a: &mut [u8], d: &mut [u8])
    requires possible { Possible S.bytes s × (3 ≤ s.total) }
    requires holds { Holds S.bytes (approx_length s.total - fixed s.total) a.old × Holds S.bytes (details_length s.total - fixed s.total) d.old }
    ensures a_after { a.new ≡ rest_of low approx_length S.bytes s }
    ensures d_after { d.new ≡ rest_of high details_length S.bytes s }
{
    let even = S::of_word(s.even);
    let detail = S::of_word(s.detail);
    if d.is_empty() {
        S::put(a, 0, approx_of(even, detail, detail));
        return;
    }
    let h = detail_of(even, S::of_word(s.odd), even);
    S::put(d, 0, h);
    S::put(a, 0, approx_of(even, detail, h));
}
