// Writing a file: a head, and then the bands of all levels, each after its count.
ghost use Rattle.std.specs.Prelude.{◌++◌, ◌≡◌, ◌*◌, ◌≤◌, ◌<◌, length, drop};
ghost use Rattle.base_answers.specs.Answers.{answer_of, plain};
ghost use Rattle.base_answers.specs.Checks.{passes};
ghost use Rattle.levels_filter.specs.Filters.{Integers, width_of};
ghost use Rattle.levels_filter.specs.Calls.{Ready};
ghost use Rattle.file_open.specs.Files.{new_size, file_size, file_of};
ghost use Rattle.file_open.specs.Writes.{write_checks, say_write, Write};

use base_answers::err::Refusal;
use base_lengths::at_least_one;
use base_lengths::checks::{check_whole, two_areas};
use file_open::head::{NEW_SIZE, lay_head};
use file_open::size::file_size;
use levels_filter::filter::{Filter, width};
use levels_filter::levels::check_depth;
use levels_forward::bands::lay_bands;

// The whole file, once the checks have passed.
#[tactic(auto, using(file_open::proofs::Writing::writing))]
fn lay_file(
    f: Filter,
    levels: usize,
    n: usize,
    point: u32,
    rate: u32,
    signal: &[u8],
    file: &mut [u8],
    one: &mut [u8],
    two: &mut [u8],
)
    requires ready { Ready f levels n (length signal.now) (length one.old) (length two.old) }
    requires n_in_bounds { file_size new_size (width_of f) levels n ≤ length file.old }
    requires rate_nonzero { 0 < rate }
    ensures file_after { file.new ≡ file_of f levels point rate signal.now ++ drop (file_size new_size (width_of f) levels n) file.old }
    ensures one_unchanged { drop (width_of f * n) one.new ≡ drop (width_of f * n) one.old }
    ensures two_unchanged { drop (width_of f * n) two.new ≡ drop (width_of f * n) two.old }
{
    lay_head(width(f), levels, n, point, rate, file);
    let end = file_size(f, levels, n);
    lay_bands(
        f,
        true,
        levels,
        n,
        signal,
        &mut file[NEW_SIZE..end],
        one,
        two,
    );
}

// By samples: n of the signal, u and v of the work areas; b bytes of the file area.
#[tactic(auto, using(file_open::proofs::Writing::levels_few))]
fn write_lengths(
    f: Filter,
    levels: usize,
    n: usize,
    b: usize,
    u: usize,
    v: usize,
) -> Result<(), Refusal>
    ensures { result ≡ passes (write_checks f levels n b u v) }
{
    check_depth(f, levels, n)?;
    let need = file_size(f, at_least_one(levels), n);
    if b < need {
        return Err(Refusal::NoRoom(b, need));
    }
    two_areas(u, v, n)
}

// What `write` says, by byte lengths.
#[tactic(auto, unfolding(file_open::specs::Writes::say_write))]
fn check_write(
    f: Filter,
    levels: usize,
    rate: u32,
    signal: usize,
    file: usize,
    one: usize,
    two: usize,
) -> Result<(), Refusal>
    ensures { plain result ≡ say_write f levels rate signal file one two }
{
    let k = width(f);
    check_whole(k, signal, one, two)?;
    if rate == 0 {
        return Err(Refusal::NoRate);
    }
    write_lengths(f, levels, signal / k, file, one / k, two / k)
}

// The samples of `signal` as a file for a point and a rate.
#[tactic(auto, using(file_open::proofs::Writing::write_whole), unfolding(base_answers::specs::Checks::Spared))]
pub fn write(
    f: Filter,
    levels: usize,
    point: u32,
    rate: u32,
    signal: &[u8],
    file: &mut [u8],
    one: &mut [u8],
    two: &mut [u8],
) -> Result<(), Refusal>
    requires { Integers f }
    ensures { Write f levels point rate signal.now file.old one.old two.old (answer_of (plain result)) file.new one.new two.new }
{
    check_write(
        f,
        levels,
        rate,
        signal.len(),
        file.len(),
        one.len(),
        two.len(),
    )?;
    let n = signal.len() / width(f);
    let l = at_least_one(levels);
    lay_file(f, l, n, point, rate, signal, file, one, two);
    Ok(())
}
