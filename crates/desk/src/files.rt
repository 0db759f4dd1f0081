// Pyramid files: writing, opening, why one does not open, one sample, where a section is, what a file says of itself, and its size.
ghost use Rattle.std.specs.Prelude.{◌≡◌};
ghost use Rattle.base_answers.specs.Answers.{answer_of};
ghost use Rattle.file_open.specs.Writes.{Write};
ghost use Rattle.file_open.specs.Opens.{OpenGives, say_section};
ghost use Rattle.file_head.specs.Heads.{Told, say_size};
ghost use Rattle.file_sample.specs.Peeks.{Peek};
ghost use Rattle.file_why.specs.Reasons.{reason_of};

use base_answers::err::Answer;
use file_head::{HeadAnswer, head, size};
use file_open::open::{OpenAnswer, open};
use file_open::section::section_place;
use file_sample::{PeekAnswer, peek};
use file_why::{Reason, why};
use file_write::write::write;
use levels_filter::filter::Filter;

// The pyramid file.

#[unsafe(no_mangle)]
pub extern "C" fn bk_pyramid_write_i8(
    x: &[u8],
    levels: u32,
    point: u32,
    rate: u32,
    file: &mut [u8],
    one: &mut [u8],
    two: &mut [u8],
) -> Answer
    ensures { Write Filter.Cdf53I8 levels point rate x.now file.old one.old two.old result file.new one.new two.new }
{
    let l = levels as usize;
    Answer::from(write(Filter::Cdf53I8, l, point, rate, x, file, one, two))
}

#[unsafe(no_mangle)]
pub extern "C" fn bk_pyramid_write_i16(
    x: &[u8],
    levels: u32,
    point: u32,
    rate: u32,
    file: &mut [u8],
    one: &mut [u8],
    two: &mut [u8],
) -> Answer
    ensures { Write Filter.Cdf53I16 levels point rate x.now file.old one.old two.old result file.new one.new two.new }
{
    let l = levels as usize;
    Answer::from(write(Filter::Cdf53I16, l, point, rate, x, file, one, two))
}

#[unsafe(no_mangle)]
pub extern "C" fn bk_pyramid_write_i32(
    x: &[u8],
    levels: u32,
    point: u32,
    rate: u32,
    file: &mut [u8],
    one: &mut [u8],
    two: &mut [u8],
) -> Answer
    ensures { Write Filter.Cdf53I32 levels point rate x.now file.old one.old two.old result file.new one.new two.new }
{
    let l = levels as usize;
    Answer::from(write(Filter::Cdf53I32, l, point, rate, x, file, one, two))
}

#[unsafe(no_mangle)]
pub extern "C" fn bk_pyramid_open(
    file: &[u8],
    width: u32,
    point: u32,
    out: &mut [u8],
    one: &mut [u8],
    two: &mut [u8],
) -> OpenAnswer
    ensures { OpenGives file.now width point out.old one.old two.old result out.new one.new two.new }
{
    open(file, width as usize, point as usize, out, one, two)
}

// Why a file does not open, or opens cut: the opener's number, and the section, the place, what is wanted there and what is found.
#[unsafe(no_mangle)]
pub extern "C" fn bk_pyramid_why(file: &[u8], width: u32, point: u32) -> Reason
    ensures { result ≡ reason_of file.now width point }
{
    why(file, width as usize, point as usize)
}

// One sample of what opening would give back.
#[unsafe(no_mangle)]
pub extern "C" fn bk_pyramid_sample(file: &[u8], width: u32, point: u32, place: u64) -> PeekAnswer
    ensures { Peek file.now width point place result }
{
    peek(file, width as usize, point as usize, place as usize)
}

// Where a section starts after its count, and how long it is: a part of the caller's own file.
#[unsafe(no_mangle)]
pub extern "C" fn bk_pyramid_section(file: &[u8], width: u32, point: u32, number: u32) -> Answer
    ensures { result ≡ answer_of (say_section file.now width point number) }
{
    Answer::from(section_place(file, width as usize, point as usize, number as usize))
}

#[unsafe(no_mangle)]
pub extern "C" fn bk_pyramid_head(file: &[u8]) -> HeadAnswer
    ensures { Told file.now result }
{
    head(file)
}

#[unsafe(no_mangle)]
pub extern "C" fn bk_pyramid_size(width: u32, n: u64, levels: u32) -> Answer
    ensures { result ≡ answer_of (say_size width n levels) }
{
    Answer::from(size(width as usize, n as usize, levels as usize))
}
