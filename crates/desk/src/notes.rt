// Notes: columns, spans and windows.
ghost use Rattle.std.specs.Prelude.{◌≡◌, length};
ghost use Rattle.base_answers.specs.Answers.{answer_of};
ghost use Rattle.view_notes.specs.Notes.{say_column, say_span};
ghost use Rattle.view_windows.specs.Windows.{say_window};

use base_answers::err::Answer;
use view_notes::notes::{CoefficientNumber, SampleNumber, note_column, note_span};
use view_spans::Band;
use view_windows::window::{SampleWidth, band_window_place};

// Notes: the column of a sample, and the samples that an approximation or a detail spans.
#[unsafe(no_mangle)]
pub extern "C" fn bk_note_column(n: u64, level: u32, sample: u64) -> Answer
    ensures { result ≡ answer_of (say_column n level sample) }
{
    Answer::from(note_column(n as usize, level as usize, SampleNumber(sample as usize)))
}

#[unsafe(no_mangle)]
pub extern "C" fn bk_note_span(n: u64, level: u32, place: u64) -> Answer
    ensures { result ≡ answer_of (say_span Band.Approx n level place) }
{
    Answer::from(note_span(
        Band::Approx,
        n as usize,
        level as usize,
        CoefficientNumber(place as usize),
    ))
}

#[unsafe(no_mangle)]
pub extern "C" fn bk_note_detail_span(n: u64, level: u32, place: u64) -> Answer
    ensures { result ≡ answer_of (say_span Band.Details n level place) }
{
    Answer::from(note_span(
        Band::Details,
        n as usize,
        level as usize,
        CoefficientNumber(place as usize),
    ))
}

// Where a window starts in the band that was asked for, and how long it is: a part of the caller's own band.
#[unsafe(no_mangle)]
pub extern "C" fn bk_band_window_i8(a: &[u8], d: &[u8], band: u32, from: u64, count: u64) -> Answer
    ensures { result ≡ answer_of (say_window 1 (length a.now) (length d.now) band from count) }
{
    Answer::from(band_window_place(SampleWidth::One, a, d, band, from as usize, count as usize))
}

#[unsafe(no_mangle)]
pub extern "C" fn bk_band_window_i16(a: &[u8], d: &[u8], band: u32, from: u64, count: u64) -> Answer
    ensures { result ≡ answer_of (say_window 2 (length a.now) (length d.now) band from count) }
{
    Answer::from(band_window_place(SampleWidth::Two, a, d, band, from as usize, count as usize))
}

#[unsafe(no_mangle)]
pub extern "C" fn bk_band_window_i32(a: &[u8], d: &[u8], band: u32, from: u64, count: u64) -> Answer
    ensures { result ≡ answer_of (say_window 4 (length a.now) (length d.now) band from count) }
{
    Answer::from(band_window_place(SampleWidth::Four, a, d, band, from as usize, count as usize))
}

#[unsafe(no_mangle)]
pub extern "C" fn bk_band_window_f32(a: &[u8], d: &[u8], band: u32, from: u64, count: u64) -> Answer
    ensures { result ≡ answer_of (say_window 4 (length a.now) (length d.now) band from count) }
{
    Answer::from(band_window_place(SampleWidth::Four, a, d, band, from as usize, count as usize))
}

#[unsafe(no_mangle)]
pub extern "C" fn bk_band_window_f64(a: &[u8], d: &[u8], band: u32, from: u64, count: u64) -> Answer
    ensures { result ≡ answer_of (say_window 8 (length a.now) (length d.now) band from count) }
{
    Answer::from(band_window_place(
        SampleWidth::Eight,
        a,
        d,
        band,
        from as usize,
        count as usize,
    ))
}
