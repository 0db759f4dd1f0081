// Looking a section up by its number: a part of the caller's own file.
ghost use Rattle.std.specs.Prelude.{◌≡◌, ◌+◌, ◌-◌, ◌≤◌, ◌<◌, length};
ghost use Rattle.base_answers.specs.Answers.{told};
ghost use Rattle.base_answers.specs.Checks.{first_refusal, passes};
ghost use Rattle.file_open.specs.Walks.{last_count};
ghost use Rattle.file_open.specs.Opens.{Read, samples_to, way_to, section_checks, number_checks, count_of, length_of, start_of, say_section, section_in, section_at};

use crate::head::{Head, head_in};
use crate::open::check_head;
use crate::walk::{Way, walk};
use base_answers::err::{Outcome, Refusal};
use base_lengths::{count_at, details_length};

// A section's number, of l levels.
fn check_number(j: usize, l: usize) -> Result<(), Refusal>
    requires { l ≤ 255 }
    ensures { result ≡ passes (number_checks j l) }
{
    if j == 0 || l + 1 < j {
        return Err(Refusal::NoSuchPlace(j, l + 1));
    }
    Ok(())
}

// How many samples the sections up to section j restore.
#[tactic(auto, using(crate::proofs::Ways::counting))]
pub fn samples_to(h: Head, j: usize) -> usize
    requires { (j ≤ h.levels + 1) × (h.levels < 256) }
    ensures { (result ≡ samples_to h j) × (result ≤ h.samples) }
{
    count_at(h.levels + 1 - j, h.samples)
}

// The walk through section j.
fn way_to(s: &[u8], h: Head, j: usize) -> Way
    requires read { Read h × (h.body ≤ length s.now) }
    requires le_j { (1 ≤ j) × (j ≤ h.levels + 1) }
    ensures { result ≡ way_to s.now h j }
{
    walk(s, h.width, j - 1, samples_to(h, j), h.body)
}

// How many samples the last section of so many levels has.
fn last_count(levels: usize, n: usize) -> usize
    ensures { (result ≡ last_count levels n) × (result ≤ n) }
{
    if levels == 0 { n } else { details_length(n) }
}

// The count that section j has.
pub fn count_of(h: Head, j: usize) -> usize
    requires { (1 ≤ j) × (j ≤ h.levels + 1) × (h.levels < 256) }
    ensures { (result ≡ count_of h j) × (result ≤ h.samples) }
{
    last_count(j - 1, samples_to(h, j))
}

// How many bytes section j has after its count.
pub fn length_of(h: Head, j: usize) -> usize
    requires width_bound { (h.width < 256) × (h.levels < 256) × (h.samples < 4294967296) }
    requires le_j { (1 ≤ j) × (j ≤ h.levels + 1) }
    ensures { result ≡ length_of h j }
{
    h.width * count_of(h, j)
}

// The way through section j, which ends at a place, is cut, or met a wrong count.
#[tactic(auto, using(crate::proofs::Sections::ends))]
fn found(s: &[u8], h: Head, j: usize) -> Outcome
    requires read { Read h × (h.body ≤ length s.now) }
    requires le_j { (1 ≤ j) × (j ≤ h.levels + 1) }
    ensures { result ≡ first_refusal (section_checks (way_to s.now h j) (length s.now)) (told (start_of s.now h j) (length_of h j)) }
{
    let size = length_of(h, j);
    match way_to(s, h, j) {
        Way::Went(end) => Ok((end - size, size)),
        Way::Short(_) => Err(Refusal::CutShort(s.len())),
        Way::Wrong(i, count) => Err(Refusal::BadCount(i, count)),
    }
}

// Where section j starts after its count, and how long it is: the checks of section 0, the number, and the way through that section.
#[tactic(auto, using(crate::proofs::Sections::section_in_turn))]
pub fn section_place(s: &[u8], w: usize, p: usize, j: usize) -> Outcome
    ensures { result ≡ say_section s.now w p j }
{
    check_head(s, w, p)?;
    let h = head_in(s);
    check_number(j, h.levels)?;
    found(s, h, j)
}

// Section j itself, without its count: a part of the file, or an empty part.
#[tactic(auto, using(crate::proofs::Sections::section_tells, crate::proofs::Sections::section_part, crate::proofs::Sections::section_stands), unfolding(crate::specs::Opens::section_in, crate::specs::Opens::section_at))]
pub fn section(s: &[u8], w: usize, p: usize, j: usize) -> &[u8]
    ensures result_value { result.now ≡ section_in s.now w p j }
    ensures ref_ptr_value { result.ref_ptr ≡ section_at s.entry w p j }
{
    match section_place(s, w, p, j) {
        Ok((start, size)) => &s[start..start + size],
        Err(_) => &s[0..0],
    }
}
