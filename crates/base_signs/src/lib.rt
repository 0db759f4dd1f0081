// The signed number that a stored word stands for.
#![tactic(auto)]

ghost use Rattle.std.specs.Prelude.{◌≡◌, ◌^◌, ◌<◌};
ghost use Rattle.base_samples.specs.Integers.{Width, val};

use base_samples::integers::Sample;

// The number that a word of k bytes stands for.
pub fn value(k: usize, word: u32) -> i64
    requires width { Width k }
    requires word_bound { word < 256 ^ k }
    ensures { result ≡ val (256 ^ k) word }
{
    match k {
        1 => u8::of_word(word).signed(),
        2 => u16::of_word(word).signed(),
        _ => u32::of_word(word).signed(),
    }
}
