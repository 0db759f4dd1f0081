// The lifting steps on words of k bytes, once over the sample. The number of a word u is (u + h) % 256^k - h, where h = 256^k / 2: so words u + h are
// added and halved as unsigned numbers, and a division rounds down.
ghost use Rattle.std.specs.Prelude.{◌≡◌, ◌+◌, ◌-◌, ◌*◌, ◌/◌, ◌%◌, ◌^◌, ◌<◌, min, length, pos, ◌+ℤ◌, ◌-ℤ◌};
ghost use Rattle.std.specs.Int.Signed.{shr_z};
ghost use Rattle.base_samples.specs.Words.{Holds};
ghost use Rattle.base_samples.specs.Integers.{Width, quarter, val, residue, wrap, decode};
ghost use Rattle.base_samples.proofs.IntegerLaws.{bias};
ghost use Rattle.filter_cdf53i.specs.Lift.{detail, approx, even};

use base_samples::integers::Sample;

// floor((x + z) / 2) + 256^k / 2, of the numbers x and z of two words.
fn mean<S: Sample>(x: S, z: S) -> S
    ensures { S.word result ≡ (bias (quarter S.bytes) (S.word x) + bias (quarter S.bytes) (S.word z)) / 2 }
{
    x.wrapping_add(S::half()).mean(z.wrapping_add(S::half()))
}

// floor((x + z + 2) / 4) + 256^k / 4, of the numbers x and z of two words.
fn mean4<S: Sample>(x: S, z: S) -> S
    ensures { S.word result ≡ (bias (quarter S.bytes) (S.word x) + bias (quarter S.bytes) (S.word z) + 2) / 4 }
{
    mean(x, z).half_up()
}

// y - floor((x + z) / 2)
pub fn detail_of<S: Sample>(x: S, y: S, z: S) -> S
    ensures { S.word result ≡ residue (256 ^ S.bytes) (val (256 ^ S.bytes) (S.word y) -ℤ shr_z (val (256 ^ S.bytes) (S.word x) +ℤ val (256 ^ S.bytes) (S.word z)) 2) }
{
    y.wrapping_sub(mean(x, z)).wrapping_add(S::half())
}

// x + floor((d + e + 2) / 4)
pub fn approx_of<S: Sample>(x: S, d: S, e: S) -> S
    ensures { S.word result ≡ residue (256 ^ S.bytes) (val (256 ^ S.bytes) (S.word x) +ℤ shr_z (val (256 ^ S.bytes) (S.word d) +ℤ val (256 ^ S.bytes) (S.word e) +ℤ pos 2) 4) }
{
    x.wrapping_sub(S::quarter()).wrapping_add(mean4(d, e))
}

// y + floor((x + z) / 2)
pub fn odd_of<S: Sample>(x: S, y: S, z: S) -> S
    ensures { S.word result ≡ residue (256 ^ S.bytes) (val (256 ^ S.bytes) (S.word y) +ℤ shr_z (val (256 ^ S.bytes) (S.word x) +ℤ val (256 ^ S.bytes) (S.word z)) 2) }
{
    y.wrapping_sub(S::half()).wrapping_add(mean(x, z))
}

// x - floor((d + e + 2) / 4)
pub fn even_of<S: Sample>(x: S, d: S, e: S) -> S
    ensures { S.word result ≡ residue (256 ^ S.bytes) (val (256 ^ S.bytes) (S.word x) -ℤ shr_z (val (256 ^ S.bytes) (S.word d) +ℤ val (256 ^ S.bytes) (S.word e) +ℤ pos 2) 4) }
{
    x.wrapping_sub(mean4(d, e)).wrapping_add(S::quarter())
}

// Detail i of the samples in x, whose next even sample is even sample `next`.
pub fn detail_at<S: Sample>(x: &[u8], i: usize, next: usize) -> S
    requires holds { Holds S.bytes (length x.now / S.bytes) x.now }
    requires i_in_bounds { (2 * i + 1 < length x.now / S.bytes) × (next ≡ min (i + 1) ((length x.now / S.bytes + 1) / 2 - 1)) }
    ensures { S.word result ≡ residue (256 ^ S.bytes) (detail (wrap S.bytes) (decode S.bytes x.now) i) }
{
    detail_of(S::get(x, 2 * i), S::get(x, 2 * i + 1), S::get(x, 2 * next))
}

// Approximation i of the samples in x, between the details `left` and `right`.
pub fn approx_at<S: Sample>(x: &[u8], d: &[u8], i: usize, left: usize, right: usize) -> S
    requires holds { Holds S.bytes (length x.now / S.bytes) x.now }
    requires i_in_bounds { (2 * i < length x.now / S.bytes) × (left ≡ i - 1) × (left < length d.now / S.bytes) × (right ≡ min i (length d.now / S.bytes - 1)) × (right < length d.now / S.bytes) }
    ensures { S.word result ≡ residue (256 ^ S.bytes) (approx (wrap S.bytes) (decode S.bytes x.now) (decode S.bytes d.now) i) }
{
    approx_of(S::get(x, 2 * i), S::get(d, left), S::get(d, right))
}

// Even sample i of the bands in a and d, between the details `left` and `right`.
pub fn even_at<S: Sample>(a: &[u8], d: &[u8], i: usize, left: usize, right: usize) -> S
    requires { (i < length a.now / S.bytes) × (left ≡ i - 1) × (left < length d.now / S.bytes) × (right ≡ min i (length d.now / S.bytes - 1)) × (right < length d.now / S.bytes) }
    ensures { S.word result ≡ residue (256 ^ S.bytes) (even (wrap S.bytes) (decode S.bytes a.now) (decode S.bytes d.now) i) }
{
    even_of(S::get(a, i), S::get(d, left), S::get(d, right))
}
