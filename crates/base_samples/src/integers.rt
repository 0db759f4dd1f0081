// Integer samples by their words, once over u8, u16 and u32, whose numbers are two's complement.
#![tactic(auto, unfolding(crate::specs::Words::word_at, crate::specs::Words::put_at, crate::specs::Le::le_at, crate::specs::Integers::quarter))]

ghost use Rattle.std.specs.Prelude.{◌≡◌, ℕ, ◌+◌, ◌*◌, ◌/◌, ◌%◌, ◌^◌, ◌<◌, length};
ghost use Rattle.std.proofs.Common.{mod-lt, lit<};
ghost use Rattle.base_samples.specs.Words.{word_at, put_at};
ghost use Rattle.base_samples.specs.Integers.{Width, width-1, width-2, width-4, quarter, val};

use crate::le::{read_u16, read_u32, write_u16, write_u32};

// What u8, u16 and u32 are alike in: so many bytes, and sums modulo so many words.
pub trait Sample: Copy {
    ghost bytes: { ℕ };

    ghost word: { Self → ℕ };

    // How many bytes a sample has.
    fn bytes() -> usize
        ensures { result ≡ bytes };

    // Sample i of a slice.
    fn get(s: &[u8], i: usize) -> Self
        requires { i < length s.now / bytes }
        ensures { word result ≡ word_at bytes s.now i };

    // The sample v as sample i of a slice.
    fn put(s: &mut [u8], i: usize, v: Self)
        requires { i < length s.old / bytes }
        ensures { s.new ≡ put_at bytes s.old i (word v) };

    // The sample of a word, and the word of a sample.
    fn of_word(n: u32) -> Self
        requires { n < 256 ^ bytes }
        ensures { word result ≡ n };

    fn to_word(self) -> u32
        ensures { result ≡ word self };

    // The number that a sample stands for.
    fn signed(self) -> i64
        ensures { result ≡ val (256 ^ bytes) (word self) };

    // A quarter of the words, and half of them.
    fn quarter() -> Self
        ensures { word result ≡ quarter bytes };

    fn half() -> Self
        ensures { word result ≡ 2 * quarter bytes };

    // self + b, kept modulo the words.
    fn wrapping_add(self, b: Self) -> Self
        ensures { word result ≡ (word self + word b) % 256 ^ bytes };

    // self - b, kept modulo the words.
    fn wrapping_sub(self, b: Self) -> Self
        ensures { (word result + word b) % 256 ^ bytes ≡ word self };

    // Half the sum of two words, rounded down, in words no wider: LLVM then takes as many at a time as a register holds. Not std's `midpoint`, by which the loops take up to a third longer.
    fn mean(self, b: Self) -> Self
        ensures { word result ≡ (word self + word b) / 2 };

    // Half a word, rounded up.
    fn half_up(self) -> Self
        ensures { word result ≡ (word self + 1) / 2 };

    ghost width: { Width bytes };

    ghost fits: { (x : Self) → word x < 256 ^ bytes };
}

impl Sample for u8 {
    ghost bytes = { 1 };

    ghost word = { λ x. x % 256 ^ 1 };

    ghost width = { width-1 };

    ghost fits = { λ x. mod-lt x (lit< tt) };

    fn bytes() -> usize {
        1
    }

    fn get(s: &[u8], i: usize) -> u8 {
        s[i]
    }

    fn put(s: &mut [u8], i: usize, v: u8) {
        s[i] = v;
    }

    fn of_word(n: u32) -> u8 {
        n as u8
    }

    fn to_word(self) -> u32 {
        u32::from(self)
    }

    fn signed(self) -> i64 {
        i64::from(self.cast_signed())
    }

    fn quarter() -> u8 {
        64
    }

    fn half() -> u8 {
        128
    }

    fn wrapping_add(self, b: u8) -> u8 {
        self.wrapping_add(b)
    }

    fn wrapping_sub(self, b: u8) -> u8 {
        self.wrapping_sub(b)
    }

    fn mean(self, b: u8) -> u8 {
        (self & b) + (self ^ b) / 2
    }

    fn half_up(self) -> u8 {
        self.div_ceil(2)
    }
}

impl Sample for u16 {
    ghost bytes = { 2 };

    ghost word = { λ x. x % 256 ^ 2 };

    ghost width = { width-2 };

    ghost fits = { λ x. mod-lt x (lit< tt) };

    fn bytes() -> usize {
        2
    }

    fn get(s: &[u8], i: usize) -> u16 {
        read_u16(s, 2 * i)
    }

    fn put(s: &mut [u8], i: usize, v: u16) {
        write_u16(s, 2 * i, v);
    }

    fn of_word(n: u32) -> u16 {
        n as u16
    }

    fn to_word(self) -> u32 {
        u32::from(self)
    }

    fn signed(self) -> i64 {
        i64::from(self.cast_signed())
    }

    fn quarter() -> u16 {
        16384
    }

    fn half() -> u16 {
        32768
    }

    fn wrapping_add(self, b: u16) -> u16 {
        self.wrapping_add(b)
    }

    fn wrapping_sub(self, b: u16) -> u16 {
        self.wrapping_sub(b)
    }

    fn mean(self, b: u16) -> u16 {
        (self & b) + (self ^ b) / 2
    }

    fn half_up(self) -> u16 {
        self.div_ceil(2)
    }
}

impl Sample for u32 {
    ghost bytes = { 4 };

    ghost word = { λ x. x % 256 ^ 4 };

    ghost width = { width-4 };

    ghost fits = { λ x. mod-lt x (lit< tt) };

    fn bytes() -> usize {
        4
    }

    fn get(s: &[u8], i: usize) -> u32 {
        read_u32(s, 4 * i)
    }

    fn put(s: &mut [u8], i: usize, v: u32) {
        write_u32(s, 4 * i, v);
    }

    fn of_word(n: u32) -> u32 {
        n
    }

    fn to_word(self) -> u32 {
        self
    }

    fn signed(self) -> i64 {
        i64::from(self.cast_signed())
    }

    fn quarter() -> u32 {
        1073741824
    }

    fn half() -> u32 {
        2147483648
    }

    fn wrapping_add(self, b: u32) -> u32 {
        self.wrapping_add(b)
    }

    fn wrapping_sub(self, b: u32) -> u32 {
        self.wrapping_sub(b)
    }

    fn mean(self, b: u32) -> u32 {
        (self & b) + (self ^ b) / 2
    }

    fn half_up(self) -> u32 {
        self.div_ceil(2)
    }
}

// How many samples a slice has.
pub fn count<S: Sample>(s: &[u8]) -> usize
    ensures { result ≡ length s.now / S.bytes }
{
    s.len() / S::bytes()
}
