// The sections of a file, one after the other.
ghost use Rattle.std.specs.Prelude.{◌≡◌, ◌+◌, ◌*◌, ◌^◌, ◌≤◌, ◌<◌, length};
ghost use Rattle.file_open.specs.Walks.{one_of, walk_of};

use base_lengths::{approx_length, details_length};
use base_samples::le::read_u32;

// How far a walk over sections got: past the last one, into a section that is cut, or to a wrong count.
#[derive(Clone, Copy)]
pub enum Way {
    Went(usize),
    Short(usize),
    Wrong(usize, usize),
}

// Section number j, of `count` samples of k bytes, at `at`.
#[tactic(auto, unfolding(crate::specs::Walks::one_of))]
fn one(s: &[u8], k: usize, count: usize, j: usize, at: usize) -> Way
    requires { (at ≤ length s.now) × (k * count < 2 ^ 63) }
    ensures { result ≡ one_of s.now k count j at }
{
    let left = s.len() - at;
    if left < 4 {
        return Way::Short(j);
    }
    let found = read_u32(s, at) as usize;
    if found != count {
        return Way::Wrong(j, found);
    }
    let need = k * count;
    if left - 4 < need {
        return Way::Short(j);
    }
    Way::Went(at + 4 + need)
}

// Sections 1 to levels + 1 of a file of n samples, from `at` on.
#[tactic(auto, using(crate::proofs::Ways::walk_none, crate::proofs::Ways::walk_more, crate::proofs::Ways::walk_room))]
pub fn walk(s: &[u8], k: usize, levels: usize, n: usize, at: usize) -> Way
    requires { (at ≤ length s.now) × (k * n < 2 ^ 63) × (levels < 2 ^ 8) × (n < 2 ^ 63) }
    ensures { result ≡ walk_of s.now k levels n at }
{
    if levels == 0 {
        return one(s, k, n, 1, at);
    }
    match walk(s, k, levels - 1, approx_length(n), at) {
        Way::Went(p) => one(s, k, details_length(n), levels + 1, p),
        stopped => stopped,
    }
}
