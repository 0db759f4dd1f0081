// Section 0 of a file: what either kind says, read, and the new kind written.
ghost use Rattle.std.specs.Prelude.{◌++◌, ◌≡◌, ◌≤◌, ◌<◌, length, drop};
ghost use Rattle.base_lengths.specs.Lengths.{most_samples};
ghost use Rattle.file_open.specs.Files.{is_count, head_of, new_size, common_size};
ghost use Rattle.file_open.specs.Opens.{head_in, Read, is_new, rate_in};

use base_samples::le::{read_u32, write_u32};

// Its count in an old file, and in a new one, which has a rate.
const OLD_COUNT: usize = 10;

pub const NEW_COUNT: usize = 14;

// Its bytes in a new file, with the count; and those that both kinds have, from the count through the point. The rate stands behind them.
pub const NEW_SIZE: usize = 4 + NEW_COUNT;

pub const COMMON_SIZE: usize = 4 + OLD_COUNT;

// What section 0 of either kind says, and where the sections after it start. That its numbers fit their bytes (`Read`) is no invariant: docs/EXCEPTIONS.md names `samples_to`,
// `count_of` and `length_of`, which take any Head that fits, and may not ask more.
#[derive(Clone, Copy)]
pub struct Head {
    pub width: usize,
    pub levels: usize,
    pub samples: usize,
    pub point: usize,
    pub body: usize,
}

// Whether section 0 can have this count.
pub fn is_count(c: usize) -> bool
    ensures { result ≡ is_count c }
{
    matches!(c, OLD_COUNT | NEW_COUNT)
}

#[tactic(auto, unfolding(base_samples::specs::Le::le_at))]
pub fn head_in(s: &[u8]) -> Head
    requires { common_size ≤ length s.now }
    ensures value { result ≡ head_in s.now }
    ensures read { Read result }
{
    Head {
        width: usize::from(s[4]),
        levels: usize::from(s[5]),
        samples: read_u32(s, 6) as usize,
        point: read_u32(s, 10) as usize,
        body: 4 + read_u32(s, 0) as usize,
    }
}

// Whether a file is of the new kind.
pub fn is_new(s: &[u8]) -> bool
    requires { 4 ≤ length s.now }
    ensures { result ≡ is_new s.now }
{
    read_u32(s, 0) as usize == NEW_COUNT
}

// The rate that a file stores: an old one has none, 0.
pub fn rate_in(s: &[u8]) -> u32
    requires { (head_in s.now).body ≤ length s.now }
    ensures { result ≡ rate_in s.now }
{
    if is_new(s) {
        read_u32(s, COMMON_SIZE)
    } else {
        0
    }
}

// Section 0 of the new kind, at the front of the file.
#[tactic(auto, using(crate::proofs::Writing::laying))]
pub fn lay_head(k: usize, levels: usize, n: usize, point: u32, rate: u32, file: &mut [u8])
    requires k_bound { (k < 256) × (levels < 256) × (n ≤ most_samples) × (new_size ≤ length file.old) }
    requires rate_nonzero { 0 < rate }
    ensures { file.new ≡ head_of k levels n point rate ++ drop new_size file.old }
{
    write_u32(file, 0, NEW_COUNT as u32);
    file[4] = k as u8;
    file[5] = levels as u8;
    write_u32(file, 6, n as u32);
    write_u32(file, 10, point);
    write_u32(file, COMMON_SIZE, rate);
}
