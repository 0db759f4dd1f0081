// Depths, one level, and many levels, forward and back, of every filter.
ghost use Rattle.std.specs.Prelude.{◌≡◌};
ghost use Rattle.base_answers.specs.Answers.{answer_of};
ghost use Rattle.base_lengths.specs.Levels.{say_depth};
ghost use Rattle.levels_filter.specs.Calls.{OneForward, OneInverse, Multi, Dwt};
ghost use Rattle.levels_filter.specs.Backward.{MultiBack};

use base_answers::err::Answer;
use base_lengths::{Wavelet, ask_depth};
use levels_filter::filter::{Filter, execute_forward, execute_inverse};
use levels_forward::levels::multi_dwt;
use levels_inverse::back::multi_idwt;
use levels_last::last::dwt;

#[unsafe(no_mangle)]
pub extern "C" fn bk_cdf53_depth(n: u64) -> Answer
    ensures { result ≡ answer_of (say_depth Wavelet.Cdf53 n) }
{
    Answer::from(ask_depth(Wavelet::Cdf53, n as usize))
}

#[unsafe(no_mangle)]
pub extern "C" fn bk_cdf97_depth(n: u64) -> Answer
    ensures { result ≡ answer_of (say_depth Wavelet.Cdf97 n) }
{
    Answer::from(ask_depth(Wavelet::Cdf97, n as usize))
}

// One level forward, and back.

#[unsafe(no_mangle)]
pub extern "C" fn bk_cdf53_forward_i8(x: &[u8], a: &mut [u8], d: &mut [u8]) -> Answer
    ensures { OneForward Filter.Cdf53I8 x.now a.old d.old result a.new d.new }
{
    Answer::from(execute_forward(Filter::Cdf53I8, x, a, d))
}

#[unsafe(no_mangle)]
pub extern "C" fn bk_cdf53_forward_i16(x: &[u8], a: &mut [u8], d: &mut [u8]) -> Answer
    ensures { OneForward Filter.Cdf53I16 x.now a.old d.old result a.new d.new }
{
    Answer::from(execute_forward(Filter::Cdf53I16, x, a, d))
}

#[unsafe(no_mangle)]
pub extern "C" fn bk_cdf53_forward_i32(x: &[u8], a: &mut [u8], d: &mut [u8]) -> Answer
    ensures { OneForward Filter.Cdf53I32 x.now a.old d.old result a.new d.new }
{
    Answer::from(execute_forward(Filter::Cdf53I32, x, a, d))
}

#[unsafe(no_mangle)]
pub extern "C" fn bk_cdf53_forward_f32(x: &[u8], a: &mut [u8], d: &mut [u8]) -> Answer
    ensures { OneForward Filter.Cdf53F32 x.now a.old d.old result a.new d.new }
{
    Answer::from(execute_forward(Filter::Cdf53F32, x, a, d))
}

#[unsafe(no_mangle)]
pub extern "C" fn bk_cdf53_forward_f64(x: &[u8], a: &mut [u8], d: &mut [u8]) -> Answer
    ensures { OneForward Filter.Cdf53F64 x.now a.old d.old result a.new d.new }
{
    Answer::from(execute_forward(Filter::Cdf53F64, x, a, d))
}

#[unsafe(no_mangle)]
pub extern "C" fn bk_cdf97_forward_f32(x: &[u8], a: &mut [u8], d: &mut [u8]) -> Answer
    ensures { OneForward Filter.Cdf97F32 x.now a.old d.old result a.new d.new }
{
    Answer::from(execute_forward(Filter::Cdf97F32, x, a, d))
}

#[unsafe(no_mangle)]
pub extern "C" fn bk_cdf97_forward_f64(x: &[u8], a: &mut [u8], d: &mut [u8]) -> Answer
    ensures { OneForward Filter.Cdf97F64 x.now a.old d.old result a.new d.new }
{
    Answer::from(execute_forward(Filter::Cdf97F64, x, a, d))
}

#[unsafe(no_mangle)]
pub extern "C" fn bk_cdf53_inverse_i8(a: &[u8], d: &[u8], out: &mut [u8]) -> Answer
    ensures { OneInverse Filter.Cdf53I8 a.now d.now out.old result out.new }
{
    Answer::from(execute_inverse(Filter::Cdf53I8, a, d, out))
}

#[unsafe(no_mangle)]
pub extern "C" fn bk_cdf53_inverse_i16(a: &[u8], d: &[u8], out: &mut [u8]) -> Answer
    ensures { OneInverse Filter.Cdf53I16 a.now d.now out.old result out.new }
{
    Answer::from(execute_inverse(Filter::Cdf53I16, a, d, out))
}

#[unsafe(no_mangle)]
pub extern "C" fn bk_cdf53_inverse_i32(a: &[u8], d: &[u8], out: &mut [u8]) -> Answer
    ensures { OneInverse Filter.Cdf53I32 a.now d.now out.old result out.new }
{
    Answer::from(execute_inverse(Filter::Cdf53I32, a, d, out))
}

#[unsafe(no_mangle)]
pub extern "C" fn bk_cdf53_inverse_f32(a: &[u8], d: &[u8], out: &mut [u8]) -> Answer
    ensures { OneInverse Filter.Cdf53F32 a.now d.now out.old result out.new }
{
    Answer::from(execute_inverse(Filter::Cdf53F32, a, d, out))
}

#[unsafe(no_mangle)]
pub extern "C" fn bk_cdf53_inverse_f64(a: &[u8], d: &[u8], out: &mut [u8]) -> Answer
    ensures { OneInverse Filter.Cdf53F64 a.now d.now out.old result out.new }
{
    Answer::from(execute_inverse(Filter::Cdf53F64, a, d, out))
}

#[unsafe(no_mangle)]
pub extern "C" fn bk_cdf97_inverse_f32(a: &[u8], d: &[u8], out: &mut [u8]) -> Answer
    ensures { OneInverse Filter.Cdf97F32 a.now d.now out.old result out.new }
{
    Answer::from(execute_inverse(Filter::Cdf97F32, a, d, out))
}

#[unsafe(no_mangle)]
pub extern "C" fn bk_cdf97_inverse_f64(a: &[u8], d: &[u8], out: &mut [u8]) -> Answer
    ensures { OneInverse Filter.Cdf97F64 a.now d.now out.old result out.new }
{
    Answer::from(execute_inverse(Filter::Cdf97F64, a, d, out))
}

// The last of many levels.

#[unsafe(no_mangle)]
pub extern "C" fn bk_cdf53_dwt_i8(
    x: &[u8],
    levels: u32,
    a: &mut [u8],
    d: &mut [u8],
    one: &mut [u8],
    two: &mut [u8],
) -> Answer
    ensures { Dwt Filter.Cdf53I8 levels x.now a.old d.old one.old two.old result a.new d.new one.new two.new }
{
    Answer::from(dwt(Filter::Cdf53I8, levels as usize, x, a, d, one, two))
}

#[unsafe(no_mangle)]
pub extern "C" fn bk_cdf53_dwt_i16(
    x: &[u8],
    levels: u32,
    a: &mut [u8],
    d: &mut [u8],
    one: &mut [u8],
    two: &mut [u8],
) -> Answer
    ensures { Dwt Filter.Cdf53I16 levels x.now a.old d.old one.old two.old result a.new d.new one.new two.new }
{
    Answer::from(dwt(Filter::Cdf53I16, levels as usize, x, a, d, one, two))
}

#[unsafe(no_mangle)]
pub extern "C" fn bk_cdf53_dwt_i32(
    x: &[u8],
    levels: u32,
    a: &mut [u8],
    d: &mut [u8],
    one: &mut [u8],
    two: &mut [u8],
) -> Answer
    ensures { Dwt Filter.Cdf53I32 levels x.now a.old d.old one.old two.old result a.new d.new one.new two.new }
{
    Answer::from(dwt(Filter::Cdf53I32, levels as usize, x, a, d, one, two))
}

#[unsafe(no_mangle)]
pub extern "C" fn bk_cdf53_dwt_f32(
    x: &[u8],
    levels: u32,
    a: &mut [u8],
    d: &mut [u8],
    one: &mut [u8],
    two: &mut [u8],
) -> Answer
    ensures { Dwt Filter.Cdf53F32 levels x.now a.old d.old one.old two.old result a.new d.new one.new two.new }
{
    Answer::from(dwt(Filter::Cdf53F32, levels as usize, x, a, d, one, two))
}

#[unsafe(no_mangle)]
pub extern "C" fn bk_cdf53_dwt_f64(
    x: &[u8],
    levels: u32,
    a: &mut [u8],
    d: &mut [u8],
    one: &mut [u8],
    two: &mut [u8],
) -> Answer
    ensures { Dwt Filter.Cdf53F64 levels x.now a.old d.old one.old two.old result a.new d.new one.new two.new }
{
    Answer::from(dwt(Filter::Cdf53F64, levels as usize, x, a, d, one, two))
}

#[unsafe(no_mangle)]
pub extern "C" fn bk_cdf97_dwt_f32(
    x: &[u8],
    levels: u32,
    a: &mut [u8],
    d: &mut [u8],
    one: &mut [u8],
    two: &mut [u8],
) -> Answer
    ensures { Dwt Filter.Cdf97F32 levels x.now a.old d.old one.old two.old result a.new d.new one.new two.new }
{
    Answer::from(dwt(Filter::Cdf97F32, levels as usize, x, a, d, one, two))
}

#[unsafe(no_mangle)]
pub extern "C" fn bk_cdf97_dwt_f64(
    x: &[u8],
    levels: u32,
    a: &mut [u8],
    d: &mut [u8],
    one: &mut [u8],
    two: &mut [u8],
) -> Answer
    ensures { Dwt Filter.Cdf97F64 levels x.now a.old d.old one.old two.old result a.new d.new one.new two.new }
{
    Answer::from(dwt(Filter::Cdf97F64, levels as usize, x, a, d, one, two))
}

// All levels, and back.

#[unsafe(no_mangle)]
pub extern "C" fn bk_cdf53_multi_dwt_i8(
    x: &[u8],
    levels: u32,
    out: &mut [u8],
    one: &mut [u8],
    two: &mut [u8],
) -> Answer
    ensures { Multi Filter.Cdf53I8 levels x.now out.old one.old two.old result out.new one.new two.new }
{
    Answer::from(multi_dwt(Filter::Cdf53I8, levels as usize, x, out, one, two))
}

#[unsafe(no_mangle)]
pub extern "C" fn bk_cdf53_multi_dwt_i16(
    x: &[u8],
    levels: u32,
    out: &mut [u8],
    one: &mut [u8],
    two: &mut [u8],
) -> Answer
    ensures { Multi Filter.Cdf53I16 levels x.now out.old one.old two.old result out.new one.new two.new }
{
    Answer::from(multi_dwt(Filter::Cdf53I16, levels as usize, x, out, one, two))
}

#[unsafe(no_mangle)]
pub extern "C" fn bk_cdf53_multi_dwt_i32(
    x: &[u8],
    levels: u32,
    out: &mut [u8],
    one: &mut [u8],
    two: &mut [u8],
) -> Answer
    ensures { Multi Filter.Cdf53I32 levels x.now out.old one.old two.old result out.new one.new two.new }
{
    Answer::from(multi_dwt(Filter::Cdf53I32, levels as usize, x, out, one, two))
}

#[unsafe(no_mangle)]
pub extern "C" fn bk_cdf53_multi_dwt_f32(
    x: &[u8],
    levels: u32,
    out: &mut [u8],
    one: &mut [u8],
    two: &mut [u8],
) -> Answer
    ensures { Multi Filter.Cdf53F32 levels x.now out.old one.old two.old result out.new one.new two.new }
{
    Answer::from(multi_dwt(Filter::Cdf53F32, levels as usize, x, out, one, two))
}

#[unsafe(no_mangle)]
pub extern "C" fn bk_cdf53_multi_dwt_f64(
    x: &[u8],
    levels: u32,
    out: &mut [u8],
    one: &mut [u8],
    two: &mut [u8],
) -> Answer
    ensures { Multi Filter.Cdf53F64 levels x.now out.old one.old two.old result out.new one.new two.new }
{
    Answer::from(multi_dwt(Filter::Cdf53F64, levels as usize, x, out, one, two))
}

#[unsafe(no_mangle)]
pub extern "C" fn bk_cdf97_multi_dwt_f32(
    x: &[u8],
    levels: u32,
    out: &mut [u8],
    one: &mut [u8],
    two: &mut [u8],
) -> Answer
    ensures { Multi Filter.Cdf97F32 levels x.now out.old one.old two.old result out.new one.new two.new }
{
    Answer::from(multi_dwt(Filter::Cdf97F32, levels as usize, x, out, one, two))
}

#[unsafe(no_mangle)]
pub extern "C" fn bk_cdf97_multi_dwt_f64(
    x: &[u8],
    levels: u32,
    out: &mut [u8],
    one: &mut [u8],
    two: &mut [u8],
) -> Answer
    ensures { Multi Filter.Cdf97F64 levels x.now out.old one.old two.old result out.new one.new two.new }
{
    Answer::from(multi_dwt(Filter::Cdf97F64, levels as usize, x, out, one, two))
}

#[unsafe(no_mangle)]
pub extern "C" fn bk_cdf53_multi_idwt_i8(
    a: &[u8],
    d: &[u8],
    lengths: &[u8],
    out: &mut [u8],
    one: &mut [u8],
    two: &mut [u8],
) -> Answer
    ensures { MultiBack Filter.Cdf53I8 a.now d.now lengths.now out.old one.old two.old result out.new one.new two.new }
{
    Answer::from(multi_idwt(Filter::Cdf53I8, a, d, lengths, out, one, two))
}

#[unsafe(no_mangle)]
pub extern "C" fn bk_cdf53_multi_idwt_i16(
    a: &[u8],
    d: &[u8],
    lengths: &[u8],
    out: &mut [u8],
    one: &mut [u8],
    two: &mut [u8],
) -> Answer
    ensures { MultiBack Filter.Cdf53I16 a.now d.now lengths.now out.old one.old two.old result out.new one.new two.new }
{
    Answer::from(multi_idwt(Filter::Cdf53I16, a, d, lengths, out, one, two))
}

#[unsafe(no_mangle)]
pub extern "C" fn bk_cdf53_multi_idwt_i32(
    a: &[u8],
    d: &[u8],
    lengths: &[u8],
    out: &mut [u8],
    one: &mut [u8],
    two: &mut [u8],
) -> Answer
    ensures { MultiBack Filter.Cdf53I32 a.now d.now lengths.now out.old one.old two.old result out.new one.new two.new }
{
    Answer::from(multi_idwt(Filter::Cdf53I32, a, d, lengths, out, one, two))
}

#[unsafe(no_mangle)]
pub extern "C" fn bk_cdf53_multi_idwt_f32(
    a: &[u8],
    d: &[u8],
    lengths: &[u8],
    out: &mut [u8],
    one: &mut [u8],
    two: &mut [u8],
) -> Answer
    ensures { MultiBack Filter.Cdf53F32 a.now d.now lengths.now out.old one.old two.old result out.new one.new two.new }
{
    Answer::from(multi_idwt(Filter::Cdf53F32, a, d, lengths, out, one, two))
}

#[unsafe(no_mangle)]
pub extern "C" fn bk_cdf53_multi_idwt_f64(
    a: &[u8],
    d: &[u8],
    lengths: &[u8],
    out: &mut [u8],
    one: &mut [u8],
    two: &mut [u8],
) -> Answer
    ensures { MultiBack Filter.Cdf53F64 a.now d.now lengths.now out.old one.old two.old result out.new one.new two.new }
{
    Answer::from(multi_idwt(Filter::Cdf53F64, a, d, lengths, out, one, two))
}

#[unsafe(no_mangle)]
pub extern "C" fn bk_cdf97_multi_idwt_f32(
    a: &[u8],
    d: &[u8],
    lengths: &[u8],
    out: &mut [u8],
    one: &mut [u8],
    two: &mut [u8],
) -> Answer
    ensures { MultiBack Filter.Cdf97F32 a.now d.now lengths.now out.old one.old two.old result out.new one.new two.new }
{
    Answer::from(multi_idwt(Filter::Cdf97F32, a, d, lengths, out, one, two))
}

#[unsafe(no_mangle)]
pub extern "C" fn bk_cdf97_multi_idwt_f64(
    a: &[u8],
    d: &[u8],
    lengths: &[u8],
    out: &mut [u8],
    one: &mut [u8],
    two: &mut [u8],
) -> Answer
    ensures { MultiBack Filter.Cdf97F64 a.now d.now lengths.now out.old one.old two.old result out.new one.new two.new }
{
    Answer::from(multi_idwt(Filter::Cdf97F64, a, d, lengths, out, one, two))
}
