// The directory of a book, read: its entries, and where their files stand in the data. No type holds that an area has one (`data_at ≤ length b`): docs/EXCEPTIONS.md names
// `entry`, `size_at`, `held`, `total_of` and `slot_of`, which may not ask more.
ghost use Rattle.std.specs.Prelude.{◌≡◌, ◌+◌, ◌*◌, ◌≤◌, ◌<◌, length, drop};
ghost use Rattle.file_open.specs.Opens.{head_in, Read};
ghost use Rattle.book_entries.specs.Books.{most_size, most, data_at, size_by, entry_at, entries_in, slot_of, place_at};

use base_samples::le::read_u32;
use file_open::head::{COMMON_SIZE, Head, head_in};

pub const MOST: usize = 64;

// A file's first bytes, through the point, which both kinds have: count, width, levels, n, point. The rate is not in an entry.
pub const ENTRY_SIZE: usize = COMMON_SIZE;

// Where the data's count stands, and where the data starts.
pub const TOTAL_AT: usize = 4 + ENTRY_SIZE * MOST;

pub const DATA_AT: usize = TOTAL_AT + 4;

// What entry i says.
pub fn entry(b: &[u8], i: usize) -> Head
    requires { (i < most) × (data_at ≤ length b.now) }
    ensures value { result ≡ head_in (entry_at b.now i) }
    ensures read { Read result }
{
    let at = 4 + ENTRY_SIZE * i;
    head_in(&b[at..at + ENTRY_SIZE])
}

// The bytes of its file.
pub fn size_at(b: &[u8], i: usize) -> usize
    requires { (i < most) × (data_at ≤ length b.now) }
    ensures value { result ≡ size_by (entry_at b.now i) }
    ensures upper_bound { result ≤ most_size }
{
    let h = entry(b, i);
    h.body + (4 * (h.levels + 1) + h.width * h.samples)
}

// How many entries are held: those before the first that is not used.
pub fn held(b: &[u8]) -> usize
    requires { data_at ≤ length b.now }
    ensures { result ≡ length (entries_in b.now) }
{
    (0..MOST)
        .position(|i| read_u32(b, 4 + ENTRY_SIZE * i) == 0)
        .unwrap_or(MOST)
}

// The bytes of the files of the first i entries.
#[tactic(auto, using(crate::proofs::Entries::walk))]
pub fn total_of(b: &[u8], i: usize) -> usize
    requires { (i ≤ length (entries_in b.now)) × (data_at ≤ length b.now) }
    ensures value { result ≡ place_at i (entries_in b.now) }
    ensures upper_bound { result ≤ most_size * most }
{
    let mut total = 0;
    for j in 0..i {
        total += size_at(b, j);
    }
    total
}

// The entry of point p, of h that are held, from entry `from` on; h where it has none.
#[tactic(auto, using(crate::proofs::Entries::walk))]
pub fn slot_of(b: &[u8], p: usize, from: usize, h: usize) -> usize
    requires { (from ≤ h) × (h ≡ length (entries_in b.now)) × (data_at ≤ length b.now) }
    ensures { result ≡ from + slot_of p (drop from (entries_in b.now)) }
{
    (from..h).find(|&i| entry(b, i).point == p).unwrap_or(h)
}
