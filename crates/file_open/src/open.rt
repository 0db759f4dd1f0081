// Opening a file of either kind: the checks in the documents' order, then the levels that a cut left.
ghost use Rattle.std.specs.Prelude.{◌≡◌, ◌≤◌, ◌<◌, length};
ghost use Rattle.base_answers.specs.Answers.{answer_of};
ghost use Rattle.base_answers.specs.Checks.{passes};
ghost use Rattle.base_samples.specs.Integers.{is_width};
ghost use Rattle.file_open.specs.Opens.{filter_of, head_in, Read, start_checks, field_checks, rate_checks, head_checks, way_in, way_checks, whole_details, say_file, area_checks, rooms_for, say_open, Open, OpenGives, own_width, own_point};

use crate::MOST_BYTES;
use crate::head::{COMMON_SIZE, Head, head_in, is_count, is_new, rate_in};
use crate::restore::restore;
use crate::walk::{Way, walk};
use base_answers::err::{Answer, Outcome, Refusal};
use base_lengths::checks::{check_whole, two_areas};
use base_lengths::{MOST_SAMPLES, Wavelet, count_at, depth};
use base_samples::le::read_u32;
use levels_filter::filter::Filter;

// A file's own width and point: 1 and 0 where it is too short to say.
#[tactic(auto, unfolding(crate::specs::Opens::own_width))]
pub fn own_width(s: &[u8]) -> usize
    ensures { result ≡ own_width s.now }
{
    if s.len() < COMMON_SIZE {
        1
    } else {
        head_in(s).width
    }
}

#[tactic(auto, unfolding(crate::specs::Opens::own_point))]
pub fn own_point(s: &[u8]) -> usize
    ensures { result ≡ own_point s.now }
{
    if s.len() < COMMON_SIZE {
        0
    } else {
        head_in(s).point
    }
}

// Whether a sample can have so many bytes.
pub fn is_width(w: usize) -> bool
    ensures { result ≡ is_width w }
{
    matches!(w, 1 | 2 | 4)
}

// The integer filter of a width.
pub fn filter_of(w: usize) -> Filter
    ensures { result ≡ filter_of w }
{
    match w {
        1 => Filter::Cdf53I8,
        2 => Filter::Cdf53I16,
        _ => Filter::Cdf53I32,
    }
}

// The length of the file, and the count of section 0, which says how long section 0 is.
pub fn check_start(s: &[u8]) -> Result<(), Refusal>
    ensures { result ≡ passes (start_checks s.now) }
{
    if MOST_BYTES < s.len() {
        return Err(Refusal::TooLong);
    }
    if s.len() < 4 {
        return Err(Refusal::CutShort(s.len()));
    }
    let count = read_u32(s, 0) as usize;
    if !is_count(count) {
        return Err(Refusal::BadCount(0, count));
    }
    if s.len() < 4 + count {
        return Err(Refusal::CutShort(s.len()));
    }
    Ok(())
}

// What section 0 says against what is asked: the width, the samples and levels, the point.
pub fn check_fields(h: Head, w: usize, p: usize) -> Result<(), Refusal>
    ensures { result ≡ passes (field_checks h w p) }
{
    if h.width != w || !is_width(w) {
        return Err(Refusal::OtherWidth(h.width, w));
    }
    if h.samples < 3 {
        return Err(Refusal::MinFilterSize(h.samples, 3));
    }
    if MOST_SAMPLES < h.samples {
        return Err(Refusal::TooLong);
    }
    if h.levels == 0 || depth(Wavelet::Cdf53, h.samples) < h.levels {
        return Err(Refusal::BufferWasTooSmallForLevel);
    }
    if h.point != p {
        return Err(Refusal::OtherPoint(h.point, p));
    }
    Ok(())
}

// A new file stores a rate.
fn check_rate(s: &[u8]) -> Result<(), Refusal>
    requires { (head_in s.now).body ≤ length s.now }
    ensures { result ≡ passes (rate_checks s.now) }
{
    if is_new(s) && rate_in(s) == 0 {
        return Err(Refusal::NoRate);
    }
    Ok(())
}

// All of section 0.
pub fn check_head(s: &[u8], w: usize, p: usize) -> Result<(), Refusal>
    ensures { result ≡ passes (head_checks s.now w p) }
{
    check_start(s)?;
    check_fields(head_in(s), w, p)?;
    check_rate(s)
}

// The walk over all sections after section 0, which says h.
fn way_in(s: &[u8], h: Head) -> Way
    requires { Read h × (h.body ≤ length s.now) }
    ensures { result ≡ way_in s.now h }
{
    walk(s, h.width, h.levels, h.samples, h.body)
}

// A wrong count, a cut in section 1, or bytes after the last section, of a file of b bytes.
fn check_way(way: Way, b: usize) -> Result<(), Refusal>
    ensures { result ≡ passes (way_checks way b) }
{
    match way {
        Way::Went(p) if p < b => Err(Refusal::Trailing(b - p)),
        Way::Short(1) => Err(Refusal::CutShort(b)),
        Way::Wrong(j, found) => Err(Refusal::BadCount(j, found)),
        Way::Went(_) | Way::Short(_) => Ok(()),
    }
}

// How many detail sections are whole, of l levels.
fn whole_details(way: Way, l: usize) -> usize
    ensures { result ≡ whole_details way l }
{
    match way {
        Way::Went(_) => l,
        Way::Short(j) => j.saturating_sub(2),
        Way::Wrong(_, _) => 0,
    }
}

// The lent areas are whole samples; a width that is none has no sample size.
fn check_areas(w: usize, o: usize, u: usize, v: usize) -> Result<(), Refusal>
    ensures { result ≡ passes (area_checks w o u v) }
{
    if is_width(w) {
        check_whole(w, o, u, v)
    } else {
        Ok(())
    }
}

// Room for count samples in the output and in both work areas.
fn check_rooms(w: usize, count: usize, o: usize, u: usize, v: usize) -> Result<(), Refusal>
    requires { 0 < w }
    ensures { result ≡ passes (rooms_for w count o u v) }
{
    if o / w < count {
        return Err(Refusal::NoRoom(o / w, count));
    }
    two_areas(u / w, v / w, count)
}

// What is said of the file alone: level and count, or a refusal.
#[tactic(auto, using(crate::proofs::Opening::file_in_turn, crate::proofs::Opening::file_kept))]
pub fn check_file(s: &[u8], w: usize, p: usize) -> Outcome
    ensures { result ≡ say_file s.now w p }
{
    check_head(s, w, p)?;
    let h = head_in(s);
    let way = way_in(s, h);
    check_way(way, s.len())?;
    let level = h.levels - whole_details(way, h.levels);
    Ok((level, count_at(level, h.samples)))
}

// What opening says.
#[tactic(auto, using(crate::proofs::Opening::open_in_turn, crate::proofs::Opening::file_some))]
fn check_open(s: &[u8], w: usize, p: usize, o: usize, u: usize, v: usize) -> Outcome
    ensures { result ≡ say_open s.now w p o u v }
{
    check_areas(w, o, u, v)?;
    let (level, count) = check_file(s, w, p)?;
    check_rooms(w, count, o, u, v)?;
    Ok((level, count))
}

// The answer, and the file's rate: 0 for an old file and where the call is refused.
#[repr(C)]
#[derive(Clone, Copy)]
pub struct OpenAnswer {
    pub answer: Answer,
    pub rate: u32,
}

// The samples of the finest level that the file lets see, to the front of the output; that level and how many samples they are.
#[tactic(auto, using(crate::proofs::Opening::opened), unfolding(base_answers::specs::Checks::Spared))]
fn open_samples(
    s: &[u8],
    w: usize,
    p: usize,
    out: &mut [u8],
    one: &mut [u8],
    two: &mut [u8],
) -> Outcome
    ensures said { result ≡ say_open s.now w p (length out.old) (length one.old) (length two.old) }
    ensures call { Open s.now w p out.old one.old two.old (answer_of result) out.new one.new two.new }
{
    let (level, count) = check_open(s, w, p, out.len(), one.len(), two.len())?;
    let h = head_in(s);
    restore(filter_of(w), s, h.levels - level, count, h.body, out, one);
    Ok((level, count))
}

// The same, and the rate, as the desk reads them.
#[tactic(auto, using(crate::proofs::Opening::open_read), unfolding(crate::specs::Opens::rate_opened))]
pub fn open(
    s: &[u8],
    w: usize,
    p: usize,
    out: &mut [u8],
    one: &mut [u8],
    two: &mut [u8],
) -> OpenAnswer
    ensures { OpenGives s.now w p out.old one.old two.old result out.new one.new two.new }
{
    let said = open_samples(s, w, p, out, one, two);
    let rate = match said {
        Ok(_) => rate_in(s),
        Err(_) => 0,
    };
    OpenAnswer {
        answer: Answer::from(said),
        rate,
    }
}
