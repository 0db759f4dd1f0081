// Bytes within one area: laid at a place, cleared, and moved down over a gap.
#![tactic(auto)]

ghost use Rattle.std.specs.Prelude.{◌++◌, ◌≡◌, ◌+◌, ◌-◌, ◌≤◌, length, take, drop, replicate};
ghost use Rattle.std.proofs.Math.Seq.{paste};

// The bytes x, at a place.
pub fn lay(b: &mut [u8], at: usize, x: &[u8])
    requires { at + length x.now ≤ length b.old }
    ensures { b.new ≡ take at b.old ++ (x.now ++ drop (at + length x.now) b.old) }
{
    b[at..at + x.len()].copy_from_slice(x);
}

// Zeros from one place up to another.
pub fn clear(b: &mut [u8], from: usize, to: usize)
    requires { (from ≤ to) × (to ≤ length b.old) }
    ensures { b.new ≡ take from b.old ++ (replicate (to - from) 0 ++ drop to b.old) }
{
    b[from..to].fill(0);
}

// The `count` bytes that stand `gap` behind a place, moved down to it; what stands behind their new place stays.
pub fn pack(b: &mut [u8], to: usize, gap: usize, count: usize)
    requires { to + gap + count ≤ length b.old }
    ensures { b.new ≡ paste b.old to (drop (to + gap) b.old) count }
{
    let from = to + gap;
    b.copy_within(from..from + count, to);
}
