// Why a file does not open: the first check that stopped the opener, in five numbers. Document 02, C-18.
#![tactic(auto)]

ghost use Rattle.std.specs.Prelude.{true, false, Err, ◌≡◌, ◌+◌, ◌≤◌, ◌<◌, length};
ghost use Rattle.file_open.specs.Opens.{head_in, Read};
ghost use Rattle.file_why.specs.Reasons.{because, end_of, place_of, missing, cut_in, reason_by, say_start, reason_of, Said};

use base_answers::err::{Answer, Outcome, Refusal};
use base_lengths::{MOST_SAMPLES, Wavelet, depth};
use base_samples::le::read_u32;
use file_open::MOST_BYTES;
use file_open::head::{Head, NEW_COUNT, head_in};
use file_open::open::{check_file, check_start};
use file_open::section::{count_of, length_of, samples_to};

// The refusal's number, the section, the byte place, and the numbers wanted and found. All zeros for a whole file.
#[repr(C)]
#[derive(Clone, Copy)]
pub struct Reason {
    pub number: u64,
    pub section: u64,
    pub place: u64,
    pub wanted: u64,
    pub found: u64,
}

fn because(number: usize, section: usize, place: usize, wanted: usize, found: usize) -> Reason
    ensures { result ≡ because number section place wanted found }
{
    Reason {
        number: number as u64,
        section: section as u64,
        place: place as u64,
        wanted: wanted as u64,
        found: found as u64,
    }
}

// Where section j ends.
#[tactic(auto, using(crate::proofs::Places::end_is, file_open::proofs::Ways::small))]
fn end_of(h: Head, j: usize) -> usize
    requires { Read h × (1 ≤ j) × (j ≤ h.levels + 1) }
    ensures { (result ≡ end_of h j) × (result < 2199023255552) }
{
    h.body + 4 * j + h.width * samples_to(h, j)
}

// Where section j starts, with its count.
fn place_of(h: Head, j: usize) -> usize
    requires { Read h × (1 ≤ j) × (j ≤ h.levels + 1) }
    ensures { (result ≡ place_of h j) × (result < 2199023255552) }
{
    end_of(h, j) - 4 - length_of(h, j)
}

// The bytes that would complete the part being read, of a section from p to e in b bytes: its count if that is broken, else the section.
fn missing(b: usize, p: usize, e: usize) -> usize
    requires { (b ≤ e) × (p < 2199023255552) }
    ensures { result ≡ missing b p e }
{
    if b < p + 4 {
        return p + 4 - b;
    }
    e - b
}

// A cut of b bytes in section j.
fn cut_in(h: Head, b: usize, number: usize, j: usize) -> Reason
    requires { Read h × (1 ≤ j) × (j ≤ h.levels + 1) × (b ≤ end_of h j) }
    ensures { result ≡ cut_in h b number j }
{
    because(number, j, b, missing(b, place_of(h, j), end_of(h, j)), 0)
}

// How many bytes complete the count of section 0, or section 0, which is cut.
fn start_missing(s: &[u8]) -> usize
    requires { 4 ≤ length s.now → length s.now ≤ (head_in s.now).body }
    ensures { result ≡ missing (length s.now) 0 (head_in s.now).body }
{
    if s.len() < 4 {
        return 4 - s.len();
    }
    4 + read_u32(s, 0) as usize - s.len()
}

// The first checks refuse: a file that is too long, a wrong count of section 0, or a cut in it.
fn start_reason(s: &[u8], e: Refusal) -> Reason
    requires { say_start s.now ≡ Err e }
    ensures { result ≡ reason_by false (head_in s.now) (length s.now) (Err e) }
{
    match e {
        Refusal::TooLong => because(6, 0, 0, MOST_BYTES, s.len()),
        Refusal::BadCount(_, found) => because(9, 0, 0, NEW_COUNT, found),
        _ => because(10, 0, s.len(), start_missing(s), 0),
    }
}

// The reason of a file of b bytes whose section 0 says h, from what the opener says of it.
fn file_reason(h: Head, b: usize, said: Outcome) -> Reason
    requires { Read h × Said h b said }
    ensures { result ≡ reason_by true h b said }
{
    match said {
        Ok((level, _)) => {
            if level == 0 {
                return because(0, 0, 0, 0, 0);
            }
            cut_in(h, b, 0, h.levels + 2 - level)
        }
        Err(Refusal::MinFilterSize(n, least)) => because(1, 0, 6, least, n),
        Err(Refusal::BufferWasTooSmallForLevel) => {
            because(4, 0, 5, depth(Wavelet::Cdf53, h.samples), h.levels)
        }
        Err(Refusal::TooLong) => because(6, 0, 6, MOST_SAMPLES, h.samples),
        Err(Refusal::OtherWidth(file, asked)) => because(8, 0, 4, asked, file),
        Err(Refusal::BadCount(j, found)) => because(9, j, place_of(h, j), count_of(h, j), found),
        Err(Refusal::CutShort(_)) => cut_in(h, b, 10, 1),
        Err(Refusal::OtherPoint(file, asked)) => because(11, 0, 10, asked, file),
        Err(Refusal::Trailing(_)) => {
            let end = end_of(h, h.levels + 1);
            because(12, h.levels + 1, end, end, b)
        }
        Err(Refusal::NoRate) => because(18, 0, 14, 1, 0),
        Err(e) => because(Answer::from(e).number as usize, 0, 0, 0, 0),
    }
}

// The first check that stopped the opener, of a file that is asked for with width w and point p.
#[tactic(auto, using(crate::proofs::Says::reason_later, crate::proofs::Says::said_past))]
pub fn why(s: &[u8], w: usize, p: usize) -> Reason
    ensures { result ≡ reason_of s.now w p }
{
    match check_start(s) {
        Err(e) => start_reason(s, e),
        Ok(()) => file_reason(head_in(s), s.len(), check_file(s, w, p)),
    }
}
