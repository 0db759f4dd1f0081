// One level of any of the seven filters: the one place where a driver chooses among them.
ghost use Rattle.std.specs.Prelude.{◌≡◌, ◌*◌, ◌<◌, ◌^◌, length};
ghost use Rattle.base_answers.specs.Answers.{answer_of, plain};
ghost use Rattle.levels_filter.specs.Filters.{width_of, wavelet_of, low_of, back_of};
ghost use Rattle.levels_filter.specs.Calls.{LevelOf, LowOf, Parted, OneForward, OneInverse};

use base_answers::err::Refusal;
use base_lengths::Wavelet;
use base_lengths::checks::{check_forward, check_inverse};
use filter_cdf53f::blocks as cdf53f;
use filter_cdf53i::cdf53i as integer;
use filter_cdf97f_forward::blocks as cdf97f_forward;
use filter_cdf97f_inverse::blocks as cdf97f_inverse;
use filter_floats::steps::Lifting;
use filter_schedules::cdf97f::turned;

// The seven filters. An enum and no type parameter: what is promised of all is said of one `f : Filter` (`levels_filter/specs/Calls.antt`), and each driver is compiled once.
#[derive(Clone, Copy)]
pub enum Filter {
    Cdf53I8,
    Cdf53I16,
    Cdf53I32,
    Cdf53F32,
    Cdf53F64,
    Cdf97F32,
    Cdf97F64,
}

// Bytes of a sample.
pub fn width(f: Filter) -> usize
    ensures { (result ≡ width_of f) × (0 < result) }
{
    match f {
        Filter::Cdf53I8 => 1,
        Filter::Cdf53I16 => 2,
        Filter::Cdf53I32 | Filter::Cdf53F32 | Filter::Cdf97F32 => 4,
        Filter::Cdf53F64 | Filter::Cdf97F64 => 8,
    }
}

// Bytes of n samples.
pub fn bytes_of(f: Filter, n: usize) -> usize
    requires { width_of f * n < 2 ^ 63 }
    ensures { result ≡ width_of f * n }
{
    width(f) * n
}

// Its length rules.
pub fn wavelet(f: Filter) -> Wavelet
    ensures { result ≡ wavelet_of f }
{
    match f {
        Filter::Cdf97F32 | Filter::Cdf97F64 => Wavelet::Cdf97,
        _ => Wavelet::Cdf53,
    }
}

// One level forward of any filter, of bands that fit.
pub fn forward(f: Filter, input: &[u8], approx: &mut [u8], details: &mut [u8])
    requires { LevelOf f (length input.now) (length approx.old) (length details.old) }
    ensures { Parted f input.now approx.new details.new }
{
    match f {
        Filter::Cdf53I8 => integer::forward::<u8>(input, approx, details),
        Filter::Cdf53I16 => integer::forward::<u16>(input, approx, details),
        Filter::Cdf53I32 => integer::forward::<u32>(input, approx, details),
        Filter::Cdf53F32 => cdf53f::forward::<f32>(input, approx, details),
        Filter::Cdf53F64 => cdf53f::forward::<f64>(input, approx, details),
        Filter::Cdf97F32 => cdf97f_forward::forward(f32::factors(), input, approx, details),
        Filter::Cdf97F64 => cdf97f_forward::forward(f64::factors(), input, approx, details),
    }
}

// The approximations of one level of any filter alone, of a band that fits.
pub fn approximate(f: Filter, x: &[u8], a: &mut [u8])
    requires { LowOf f (length x.now) (length a.old) }
    ensures { a.new ≡ low_of f x.now }
{
    match f {
        Filter::Cdf53I8 => integer::approximate::<u8>(x, a),
        Filter::Cdf53I16 => integer::approximate::<u16>(x, a),
        Filter::Cdf53I32 => integer::approximate::<u32>(x, a),
        Filter::Cdf53F32 => cdf53f::approximate::<f32>(x, a),
        Filter::Cdf53F64 => cdf53f::approximate::<f64>(x, a),
        Filter::Cdf97F32 => cdf97f_forward::approximate(f32::factors(), x, a),
        Filter::Cdf97F64 => cdf97f_forward::approximate(f64::factors(), x, a),
    }
}

// One level back of any filter, of bands that fit. The signs of the four lifting factors are changed here.
pub fn inverse(f: Filter, approx: &[u8], details: &[u8], output: &mut [u8])
    requires { LevelOf f (length output.old) (length approx.now) (length details.now) }
    ensures { output.new ≡ back_of f approx.now details.now }
{
    match f {
        Filter::Cdf53I8 => integer::inverse::<u8>(approx, details, output),
        Filter::Cdf53I16 => integer::inverse::<u16>(approx, details, output),
        Filter::Cdf53I32 => integer::inverse::<u32>(approx, details, output),
        Filter::Cdf53F32 => cdf53f::inverse::<f32>(approx, details, output),
        Filter::Cdf53F64 => cdf53f::inverse::<f64>(approx, details, output),
        Filter::Cdf97F32 => {
            cdf97f_inverse::inverse(turned(f32::factors()), approx, details, output)
        }
        Filter::Cdf97F64 => {
            cdf97f_inverse::inverse(turned(f64::factors()), approx, details, output)
        }
    }
}

// One level forward with its checks.
pub fn execute_forward(
    f: Filter,
    input: &[u8],
    approx: &mut [u8],
    details: &mut [u8],
) -> Result<(), Refusal>
    ensures { OneForward f input.now approx.old details.old (answer_of (plain result)) approx.new details.new }
{
    check_forward(
        wavelet(f),
        width(f),
        input.len(),
        approx.len(),
        details.len(),
    )?;
    forward(f, input, approx, details);
    Ok(())
}

// One level back with its checks.
pub fn execute_inverse(
    f: Filter,
    approx: &[u8],
    details: &[u8],
    output: &mut [u8],
) -> Result<(), Refusal>
    ensures { OneInverse f approx.now details.now output.old (answer_of (plain result)) output.new }
{
    check_inverse(
        wavelet(f),
        width(f),
        approx.len(),
        details.len(),
        output.len(),
    )?;
    inverse(f, approx, details, output);
    Ok(())
}
