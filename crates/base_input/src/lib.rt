// What a program is given on its input, in a buffer of its own: programs have no heap either.
#![tactic(auto)]

ghost use Rattle.std.specs.Prelude.{◌≤◌, length, IfOk};

use std::io;
use std::io::Read;

// The bytes of the input, to the front of a buffer: as many as there are, or as it holds.
pub fn read_full(input: &mut impl Read, buf: &mut [u8]) -> io::Result<usize>
    ensures { IfOk result (λ n. n ≤ length buf.new) }
{
    let mut n = 0;
    // each read but the last gives a byte or more, so there is no shorter count
    for _ in 0..u64::MAX {
        if n == buf.len() {
            break;
        }
        let got = input.read(&mut buf[n..])?;
        if got == 0 {
            break;
        }
        n += got;
    }
    Ok(n)
}
