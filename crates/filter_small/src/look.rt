// The look through a part of a slice, and floats read and written without a test for NaN where it found nothing large.
ghost use Rattle.std.specs.Prelude.{true, not, cond, ◌≡◌, ◌+◌, ◌/◌, ◌%◌, ◌≤◌, ◌<◌, IsTrue, length};
ghost use Rattle.std.specs.Float.Ieee.{is_nan, top};
ghost use Rattle.base_samples.specs.Floats.{width, float_at, put_float};
ghost use Rattle.filter_small.specs.Small.{edge, SmallIf, BothSmallIf};

use base_samples::floats::{Real, count, get_number, put_number};
use filter_floats::steps::Lifting;

// The look as words: one word has what was seen of all the patterns so far, and one comparison at the end reads it.
pub trait Look: Lifting + Default {
    // What is seen of no pattern.
    fn unseen() -> Self::Word
        ensures { Self.word result ≡ 0 };

    // What is seen of the pattern n too: it stays below `top` only if n is a small float's.
    fn see(seen: Self::Word, n: Self::Word) -> Self::Word
        ensures { Self.word result < top Self.format → (Self.word seen < top Self.format) × (Self.word n % top Self.format < edge Self.format) };

    // Whether what was seen is below `top`.
    fn all_small(seen: Self::Word) -> bool
        ensures { result ≡ true → Self.word seen < top Self.format };
}

impl Look for f32 {
    fn unseen() -> u32 {
        0
    }

    // The sum reaches the top bit if n, without its sign, is not below the edge; the bit then stays.
    fn see(seen: u32, n: u32) -> u32 {
        seen | (n % 0x8000_0000 + 0x2000_0000)
    }

    fn all_small(seen: u32) -> bool {
        seen < 0x8000_0000
    }
}

impl Look for f64 {
    fn unseen() -> u64 {
        0
    }

    // The sum reaches the top bit if n, without its sign, is not below the edge; the bit then stays.
    fn see(seen: u64, n: u64) -> u64 {
        seen | (n % 0x8000_0000_0000_0000 + 0x1000_0000_0000_0000)
    }

    fn all_small(seen: u64) -> bool {
        seen < 0x8000_0000_0000_0000
    }
}

// True only if each float from place i to before place j, as far as there are, is no NaN and below the edge in size; false says nothing.
pub fn small_from<F: Look>(s: &[u8], i: usize, j: usize) -> bool
    ensures { SmallIf result F.format s.now i j }
{
    let mut seen = F::unseen();
    for p in i..j.min(count::<F>(s)) {
        seen = F::see(seen, F::read(s, p));
    }
    F::all_small(seen)
}

// The same of two bands, in one loop.
pub fn small_bands<F: Look>(a: &[u8], d: &[u8], i: usize, j: usize) -> bool
    requires { (j ≤ length a.now / width F.format) × (j ≤ length d.now / width F.format) }
    ensures { BothSmallIf result F.format a.now d.now i j }
{
    let mut seen = F::unseen();
    for p in i..j {
        seen = F::see(seen, F::read(a, p));
        seen = F::see(seen, F::read(d, p));
    }
    F::all_small(seen)
}

// Float i of a slice, which is small where the flag is set. The flag is the same in a whole loop, so LLVM takes the test out of it.
pub fn get<F: Real>(small: bool, s: &[u8], i: usize) -> F
    requires i_in_bounds { i < length s.now / width F.format }
    requires small_if { SmallIf small F.format s.now i (i + 1) }
    ensures { F.float result ≡ float_at F.format s.now i }
{
    if small {
        get_number(s, i)
    } else {
        base_samples::floats::get(s, i)
    }
}

// The float x, which is no NaN where `small` is set, as float i of a slice.
pub fn put<F: Real>(small: bool, s: &mut [u8], i: usize, x: F)
    requires i_in_bounds { i < length s.old / width F.format }
    requires number { small ≡ true → IsTrue (not (is_nan (F.float x))) }
    ensures { s.new ≡ put_float F.format s.old i (F.float x) }
{
    if small {
        put_number(s, i, x);
    } else {
        base_samples::floats::put(s, i, x);
    }
}

// The same where the float is wanted; if not, the slice stays.
pub fn put_if<F: Real>(wanted: bool, small: bool, s: &mut [u8], i: usize, x: F)
    requires i_in_bounds { wanted ≡ true → i < length s.old / width F.format }
    requires number { small ≡ true → IsTrue (not (is_nan (F.float x))) }
    ensures { s.new ≡ cond wanted (put_float F.format s.old i (F.float x)) s.old }
{
    if wanted {
        put(small, s, i, x);
    }
}
