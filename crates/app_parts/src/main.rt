// A pyramid file of 8 bits and point 14 on standard input: the bytes of its sections, and windows of the deepest level's two bands. Each is a part of the file itself.
#![tactic(auto)]

ghost use Rattle.std.specs.Prelude.{◌≡◌, ◌≤◌, length};
ghost use Rattle.view_windows.specs.Windows.{window_in};
ghost use Rattle.file_open.specs.Opens.{section_in};

use base_input::read_full;
use file_open::section::section;
use std::io;
use view_windows::window::{SampleWidth, band_window};

// The file's width and point.
const WIDTH: usize = 1;

const POINT: usize = 14;

// The bytes of a part, a space before each, to the end of the line.
fn print_bytes(rt: &impl Print, s: &[u8]) -> io::Result<()> {
    for b in s {
        print!(rt; " {b}")?;
    }
    println!(rt)
}

// A section's bytes: none where the file has no such section.
fn print_section(rt: &impl Print, s: &[u8], number: usize) -> io::Result<()> {
    print!(rt; "section {number}:")?;
    print_bytes(rt, section(s, WIDTH, POINT, number))
}

// A window of the deepest approximations or of the deepest details, which are sections 1 and 2: bytes of the file's own block.
fn window(s: &[u8], band: u32, start: usize, count: usize) -> &[u8]
    ensures result_value { result.now ≡ window_in 1 (section_in s.now 1 14 1) (section_in s.now 1 14 2) band start count }
    ensures ref_ptr_value { result.ref_ptr.0 ≡ s.entry.ref_ptr.0 }
{
    let approx = section(s, WIDTH, POINT, 1);
    let details = section(s, WIDTH, POINT, 2);
    band_window(SampleWidth::One, approx, details, band, start, count)
}

fn print_window(
    rt: &impl Print,
    name: &str,
    s: &[u8],
    band: u32,
    start: usize,
    count: usize,
) -> io::Result<()> {
    print!(rt; "{name}:")?;
    print_bytes(rt, window(s, band, start, count))
}

fn main(rt: HostRuntime) -> io::Result<()> {
    let mut input = [0u8; 65536];
    let n = read_full(&mut rt.reader(), &mut input)?;
    let s = &input[..n];
    for number in 1..=4 {
        print_section(&rt, s, number)?;
    }
    print_window(&rt, "1 approximation from 1", s, 0, 1, 1)?;
    print_window(&rt, "1 detail from 0", s, 1, 0, 1)?;
    print_window(&rt, "2 details from 0", s, 1, 0, 2)
}
