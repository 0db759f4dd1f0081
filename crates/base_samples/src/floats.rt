// Floats by their bits, in little-endian bytes, once over f32 and f64. A NaN is written by one pattern.
#![tactic(auto, unfolding(crate::specs::Words::word_at, crate::specs::Words::put_at, crate::specs::Floats::float_at, crate::specs::Floats::put_float, crate::specs::Floats::canonical))]

ghost use Rattle.std.specs.Prelude.{not, ◌≡◌, ℕ, ◌/◌, ◌<◌, IsTrue, Float, length};
ghost use Rattle.std.specs.Float.{Format, binary32, binary64};
ghost use Rattle.std.specs.Float.Ieee.{is_nan, nan_bits, of_bits, to_bits, add, mul, neg};
ghost use Rattle.std.proofs.Common.{lit<, lit≤};
ghost use Rattle.base_samples.specs.Words.{word_at, put_at};
ghost use Rattle.base_samples.specs.Floats.{width, float_at, put_float, canonical, Plain, Compact};

use crate::le::{read_u32, read_u64, write_u32, write_u64};
use std::num::{
    f32_from_bits_with_nan, f32_to_bits_with_nan, f64_from_bits_with_nan, f64_to_bits_with_nan,
};
use std::ops::{Add, Mul, Neg};

// What f32 and f64 are alike in: IEEE's operators at a format, and a word for a bit pattern.
pub trait Real: Copy + Add<Self, Output = Self> + Mul<Self, Output = Self> + Neg<Output = Self> {
    type Word: Copy;

    ghost format: { Format };

    ghost float: { Self → Float };

    ghost word: { Self.Word → ℕ };

    // How many bytes a float has.
    fn width() -> usize
        ensures { result ≡ width format };

    // Word i of a slice.
    fn read(s: &[u8], i: usize) -> Self::Word
        requires { i < length s.now / width format }
        ensures { word result ≡ word_at (width format) s.now i };

    // The word n as word i of a slice.
    fn write(s: &mut [u8], i: usize, n: Self::Word)
        requires { i < length s.old / width format }
        ensures { s.new ≡ put_at (width format) s.old i (word n) };

    // The float of any bit pattern: every NaN's gives the one NaN.
    fn of_word(n: Self::Word) -> Self
        ensures { float result ≡ of_bits format (word n) };

    // The float of a pattern that is a NaN's only where it is the fixed one.
    fn of_plain(n: Self::Word) -> Self
        requires { canonical format (word n) ≡ word n }
        ensures { float result ≡ of_bits format (word n) };

    // The float of a pattern that is no NaN's.
    fn of_number(n: Self::Word) -> Self
        requires { IsTrue (not (nan_bits format (word n))) }
        ensures { float result ≡ of_bits format (word n) };

    // The bit pattern of any float: the NaN's is one fixed pattern.
    fn to_word(self) -> Self::Word
        ensures { word result ≡ to_bits format (float self) };

    // The bit pattern of a float that is no NaN.
    fn number_word(self) -> Self::Word
        requires { IsTrue (not (is_nan (float self))) }
        ensures { word result ≡ to_bits format (float self) };

    // The pattern that the float of a pattern is written by.
    fn canonical(n: Self::Word) -> Self::Word
        ensures { word result ≡ canonical format (word n) };

    // So few bytes that an array of floats fits in memory.
    ghost compact: { Compact Self.row };

    // The operators are IEEE's, at any operands.
    ghost can_sum: { (x y : Self) → Self.can_add x y };

    ghost sums: { (x y r : Self) → Self.add_gives x y r → float r ≡ add format (float x) (float y) };

    ghost can_multiply: { (x y : Self) → Self.can_mul x y };

    ghost products: { (x y r : Self) → Self.mul_gives x y r → float r ≡ mul format (float x) (float y) };

    ghost can_negate: { (x : Self) → Self.can_neg x };

    ghost negations: { (x r : Self) → Self.neg_gives x r → float r ≡ neg (float x) };
}

// Twice in one form: std has no trait for the words' arithmetic, and `rt verdict` takes no impl that a macro writes.
impl Real for f32 {
    type Word = u32;

    ghost format = { binary32 };

    ghost float = { λ x. x };

    ghost word = { λ n. n };

    ghost compact = { record { some = lit< tt; few = lit≤ tt; size = lit≤ tt } };

    ghost can_sum = { λ _ _. tt };

    ghost sums = { λ _ _ _ h. h };

    ghost can_multiply = { λ _ _. tt };

    ghost products = { λ _ _ _ h. h };

    ghost can_negate = { λ _. tt };

    ghost negations = { λ _ _ h. h };

    fn width() -> usize {
        4
    }

    fn read(s: &[u8], i: usize) -> u32 {
        read_u32(s, 4 * i)
    }

    fn write(s: &mut [u8], i: usize, n: u32) {
        write_u32(s, 4 * i, n);
    }

    fn of_word(n: u32) -> f32 {
        f32_from_bits_with_nan(n)
    }

    // Both arms have the pattern's bits, so the compiler leaves the test out.
    fn of_plain(n: u32) -> f32 {
        if n == 0x7FC0_0000 {
            f32::NAN
        } else {
            f32::from_bits(n)
        }
    }

    fn of_number(n: u32) -> f32 {
        f32::from_bits(n)
    }

    fn to_word(self) -> u32 {
        f32_to_bits_with_nan(self)
    }

    fn number_word(self) -> u32 {
        self.to_bits()
    }

    fn canonical(n: u32) -> u32 {
        if n % 0x8000_0000 > 0x7F80_0000 {
            0x7FC0_0000
        } else {
            n
        }
    }
}

impl Real for f64 {
    type Word = u64;

    ghost format = { binary64 };

    ghost float = { λ x. x };

    ghost word = { λ n. n };

    ghost compact = { record { some = lit< tt; few = lit≤ tt; size = lit≤ tt } };

    ghost can_sum = { λ _ _. tt };

    ghost sums = { λ _ _ _ h. h };

    ghost can_multiply = { λ _ _. tt };

    ghost products = { λ _ _ _ h. h };

    ghost can_negate = { λ _. tt };

    ghost negations = { λ _ _ h. h };

    fn width() -> usize {
        8
    }

    fn read(s: &[u8], i: usize) -> u64 {
        read_u64(s, 8 * i)
    }

    fn write(s: &mut [u8], i: usize, n: u64) {
        write_u64(s, 8 * i, n);
    }

    fn of_word(n: u64) -> f64 {
        f64_from_bits_with_nan(n)
    }

    // Both arms have the pattern's bits, so the compiler leaves the test out.
    fn of_plain(n: u64) -> f64 {
        if n == 0x7FF8_0000_0000_0000 {
            f64::NAN
        } else {
            f64::from_bits(n)
        }
    }

    fn of_number(n: u64) -> f64 {
        f64::from_bits(n)
    }

    fn to_word(self) -> u64 {
        f64_to_bits_with_nan(self)
    }

    fn number_word(self) -> u64 {
        self.to_bits()
    }

    fn canonical(n: u64) -> u64 {
        if n % 0x8000_0000_0000_0000 > 0x7FF0_0000_0000_0000 {
            0x7FF8_0000_0000_0000
        } else {
            n
        }
    }
}

// How many floats a slice has.
pub fn count<F: Real>(s: &[u8]) -> usize
    ensures { result ≡ length s.now / width F.format }
{
    s.len() / F::width()
}

// Float i of a slice.
pub fn get<F: Real>(s: &[u8], i: usize) -> F
    requires { i < length s.now / width F.format }
    ensures { F.float result ≡ float_at F.format s.now i }
{
    F::of_word(F::read(s, i))
}

// Float i of a slice, where it stands as it is written.
pub fn get_plain<F: Real>(s: &[u8], i: usize) -> F
    requires i_in_bounds { i < length s.now / width F.format }
    requires plain { Plain F.format s.now i }
    ensures { F.float result ≡ float_at F.format s.now i }
{
    F::of_plain(F::read(s, i))
}

// Float i of a slice, which is no NaN.
pub fn get_number<F: Real>(s: &[u8], i: usize) -> F
    requires i_in_bounds { i < length s.now / width F.format }
    requires number { IsTrue (not (is_nan (float_at F.format s.now i))) }
    ensures { F.float result ≡ float_at F.format s.now i }
{
    F::of_number(F::read(s, i))
}

// The float x as float i of a slice.
pub fn put<F: Real>(s: &mut [u8], i: usize, x: F)
    requires { i < length s.old / width F.format }
    ensures { s.new ≡ put_float F.format s.old i (F.float x) }
{
    F::write(s, i, x.to_word());
}

// The float x, which is no NaN, as float i of a slice.
pub fn put_number<F: Real>(s: &mut [u8], i: usize, x: F)
    requires i_in_bounds { i < length s.old / width F.format }
    requires number { IsTrue (not (is_nan (F.float x))) }
    ensures { s.new ≡ put_float F.format s.old i (F.float x) }
{
    F::write(s, i, x.number_word());
}

// Float j of t as float i of s, by its pattern: one test for NaN, not two.
pub fn copy<F: Real>(s: &mut [u8], i: usize, t: &[u8], j: usize)
    requires i_in_bounds { i < length s.old / width F.format }
    requires j_in_bounds { j < length t.now / width F.format }
    ensures { s.new ≡ put_float F.format s.old i (float_at F.format t.now j) }
{
    F::write(s, i, F::canonical(F::read(t, j)));
}
