// A pyramid file on standard input: what its section 0 says, and the samples that opening it for its own width and point gives.
#![tactic(auto)]

ghost use Rattle.std.specs.Prelude.{◌/◌, ◌≤◌, length};
ghost use Rattle.file_open.specs.Opens.{OpenGives, own_width, own_point};

use base_answers::err::{Answer, Refusal};
use base_input::read_full;
use base_samples::integers::Sample;
use base_signs::value;
use file_open::head::head_in;
use file_open::open::{OpenAnswer, open, own_point, own_width};
use std::io;

// The longest input.
const MOST: usize = 65536;

fn print_refused(rt: &impl Print, number: u32) -> io::Result<()> {
    println!(rt; "refused {number}")
}

// The first n samples, a line for each.
fn print_samples<S: Sample>(rt: &impl Print, s: &[u8], n: usize) -> io::Result<()>
    requires { n ≤ length s.now / S.bytes }
{
    for i in 0..n {
        println!(rt; "{}", value(S::bytes(), S::get(s, i).to_word()))?;
    }
    Ok(())
}

// The file s, opened for the width and the point that its section 0 says, and for 1 and 0 where it is too short to say.
fn open_own(s: &[u8], out: &mut [u8], one: &mut [u8], two: &mut [u8]) -> OpenAnswer
    ensures { OpenGives s.now (own_width s.now) (own_point s.now) out.old one.old two.old result out.new one.new two.new }
{
    open(s, own_width(s), own_point(s), out, one, two)
}

// What opening the file s gives, by way of three areas.
fn show(
    rt: &impl Print,
    s: &[u8],
    out: &mut [u8],
    one: &mut [u8],
    two: &mut [u8],
) -> io::Result<()> {
    let opened = open_own(s, out, one, two);
    let r = opened.answer;
    if r.number != 0 {
        return print_refused(rt, r.number);
    }
    let h = head_in(s);
    // an old file has no rate, 0
    println!(rt;
        "point {} width {} samples {} levels {} rate {}",
        h.point, h.width, h.samples, h.levels, opened.rate
    )?;
    println!(rt; "level {} count {}", r.first, r.second)?;
    let n = r.second as usize;
    match h.width {
        1 => print_samples::<u8>(rt, out, n),
        2 => print_samples::<u16>(rt, out, n),
        _ => print_samples::<u32>(rt, out, n),
    }
}

fn main(rt: HostRuntime) -> io::Result<()> {
    let mut input = [0u8; 65537];
    let n = read_full(&mut rt.reader(), &mut input)?;
    if MOST < n {
        return print_refused(&rt, Answer::from(Refusal::TooLong).number);
    }
    let mut out = [0u8; MOST];
    let mut one = [0u8; MOST];
    let mut two = [0u8; MOST];
    show(&rt, &input[..n], &mut out, &mut one, &mut two)
}
