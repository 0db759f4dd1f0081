// Stored answers of the Rust, with document 02's 17, asked of the calls behind the desk's functions again. data/README says how a list of them is laid out.
#![tactic(auto)]

ghost use Rattle.std.specs.Prelude.{◌+◌, ◌≤◌, ◌<◌, ◌≡◌, length, take, IfSome};

use base_answers::err::Answer;
use base_input::read_full;
use base_samples::le::{read_u16, read_u32};
use levels_filter::filter::{Filter, execute_forward, execute_inverse};
use levels_forward::levels::multi_dwt;
use levels_inverse::back::multi_idwt;
use levels_last::last::dwt;
use std::rt::Files;
use std::{fs, io};

// A record gone through: where the next one starts, and whether the call says and leaves the same.
#[derive(Clone, Copy)]
struct Step {
    next: usize,
    same: bool,
}

// A list gone through: its records, those that differ, and whether it ends with the byte 0.
#[derive(Clone, Copy)]
struct Tally {
    records: u64,
    differ: u64,
    is_whole: bool,
}

// Where the slice ends whose length stands at a place: past the end of s where it has no length there.
fn slice_end(s: &[u8], at: usize) -> usize
    requires { at ≤ 1000000 }
    ensures { (at + 2 ≤ result) × (result ≤ at + 65537) }
{
    let start = at + 2;
    if s.len() < start {
        return start;
    }
    start + usize::from(read_u16(s, at))
}

// The n bytes of s from a place on, at the start of an array of which they can be lent.
fn loaded(s: &[u8], from: usize, n: usize) -> [u8; 256]
    requires { (from + n ≤ length s.now) × (n ≤ 256) }
    ensures in_bounds { n ≤ length result }
    ensures taken { n ≡ length (take n result) }
{
    let mut a = [0u8; 256];
    a[..n].copy_from_slice(&s[from..from + n]);
    a
}

// A record's filter. Any byte above 5 is the last: no list has one above 6, and a list that had one was replayed so before.
fn filter_of(b: u8) -> Filter {
    match b {
        0 => Filter::Cdf53I8,
        1 => Filter::Cdf53I16,
        2 => Filter::Cdf53I32,
        3 => Filter::Cdf53F32,
        4 => Filter::Cdf53F64,
        5 => Filter::Cdf97F32,
        _ => Filter::Cdf97F64,
    }
}

// The answer that stands at a place.
fn stored_answer(s: &[u8], at: usize) -> Answer
    requires { at + 9 ≤ length s.now }
{
    Answer {
        number: u32::from(s[at]),
        first: u64::from(read_u32(s, at + 1)),
        second: u64::from(read_u32(s, at + 5)),
    }
}

// A call by its number, if there is one; it reads up to three slices and is lent up to two. Work areas are as long as any slice.
fn call(
    verb: u8,
    f: Filter,
    levels: usize,
    x: &[u8],
    y: &[u8],
    z: &[u8],
    a: &mut [u8],
    d: &mut [u8],
) -> Option<Answer> {
    let mut one = [0u8; 256];
    let mut two = [0u8; 256];
    let said = match verb {
        1 => execute_forward(f, x, a, d),
        2 => execute_inverse(f, x, y, a),
        3 => dwt(f, levels, x, a, d, &mut one, &mut two),
        4 => multi_dwt(f, levels, x, a, &mut one, &mut two),
        5 => multi_idwt(f, x, y, z, a, &mut one, &mut two),
        _ => return None,
    };
    Some(Answer::from(said))
}

// The call of the record at a place: its number, filter and levels stand there, then the three slices that it reads, which end at x, y and z.
fn ask(
    s: &[u8],
    at: usize,
    x: usize,
    y: usize,
    z: usize,
    a: &mut [u8],
    d: &mut [u8],
) -> Option<Answer>
    requires { (at + 5 ≤ x) × (x + 2 ≤ y) × (y + 2 ≤ z) × (z ≤ length s.now) × (length s.now ≤ 65536) }
{
    let f = filter_of(s[at + 1]);
    let levels = usize::from(s[at + 2]);
    let first = &s[at + 5..x];
    let second = &s[x + 2..y];
    let third = &s[y + 2..z];
    call(s[at], f, levels, first, second, third, a, d)
}

// A record: its call, filter and levels, three slices, two that are lent, the answer, and the two as they are left. None where it does not fit the list.
fn replay(s: &[u8], at: usize) -> Option<Step>
    requires { (at < length s.now) × (length s.now ≤ 65536) }
    ensures { IfSome result (λ step. (at < step.next) × (step.next ≤ length s.now)) }
{
    let x_end = slice_end(s, at + 3);
    let y_end = slice_end(s, x_end);
    let z_end = slice_end(s, y_end);
    let a_end = slice_end(s, z_end);
    let d_end = slice_end(s, a_end);
    let a_len = a_end - z_end - 2;
    let d_len = d_end - a_end - 2;
    let after = d_end + 9;
    let middle = after + a_len;
    let next = middle + d_len;
    if s.len() < next || 256 < a_len || 256 < d_len {
        return None;
    }
    let mut first = loaded(s, z_end + 2, a_len);
    let mut second = loaded(s, a_end + 2, d_len);
    let a: &mut [u8] = &mut first[..a_len];
    let d: &mut [u8] = &mut second[..d_len];
    let answer = ask(s, at, x_end, y_end, z_end, a, d);
    let said = answer == Some(stored_answer(s, d_end));
    let same_a = &*a == &s[after..middle];
    let same_d = &*d == &s[middle..next];
    Some(Step {
        next,
        same: said && same_a && same_d,
    })
}

// Every record of a list. A record says how long it is, so no iterator has their places.
fn replay_all(s: &[u8]) -> Tally
    requires { length s.now ≤ 65536 }
{
    let mut tally = Tally {
        records: 0,
        differ: 0,
        is_whole: false,
    };
    let mut at = 0;
    while at < s.len() {
        if s[at] == 0 {
            tally.is_whole = at + 1 == s.len();
            break;
        }
        let Some(step) = replay(s, at) else {
            break;
        };
        at = step.next;
        tally.records += 1;
        if !step.same {
            tally.differ += 1;
        }
    }
    tally
}

// One line: how many records, and how many of them differ, or that the list is cut.
fn print(rt: &impl Print, t: Tally) -> io::Result<()> {
    if t.is_whole {
        println!(rt; "{} records, {} differ", t.records, t.differ)
    } else {
        println!(rt; "{} records, cut", t.records)
    }
}

// The list in the first 65,536 bytes of a file.
fn replay_file(rt: &(impl Files + Print + Eprint), path: &str) -> io::Result<()> {
    let mut file = match fs::open(rt, path) {
        Ok(file) => file,
        Err(e) => return eprintln!(rt; "{path}: {e}"),
    };
    let mut list = [0u8; 65536];
    let n = read_full(&mut file, &mut list)?;
    print(rt, replay_all(&list[..n]))
}

// Each list of data/, a line for each.
fn main(rt: HostRuntime) -> io::Result<()> {
    replay_file(&rt, "integer.bin")?;
    replay_file(&rt, "floats.bin")?;
    replay_file(&rt, "levels.bin")
}
