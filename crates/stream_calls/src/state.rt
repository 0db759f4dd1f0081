// What is kept of a recording between two pieces, as 16 bytes, and whether calls can have left these.
ghost use Rattle.std.specs.Prelude.{◌≡◌, length};
ghost use Rattle.stream_calls.specs.StateBytes.{state_size, state_bytes, state_in, is_kept, could_be};

use base_lengths::MOST_SAMPLES;
use base_samples::integers::Sample;
use base_samples::le::{read_u32, write_u32};
use stream_pieces::recorder::{Recorder, fixed, waiting};

// How many bytes a state has.
const STATE_SIZE: usize = 16;

// The state in 16 bytes.
#[tactic(auto, unfolding(base_samples::specs::Words::word_at))]
pub fn read(b: &[u8]) -> Recorder
    requires { length b.now ≡ state_size }
    ensures { result ≡ state_in b.now }
{
    Recorder {
        total: read_u32(b, 0),
        even: read_u32(b, 4),
        odd: read_u32(b, 8),
        detail: read_u32(b, 12),
    }
}

// The state as 16 bytes.
pub fn write(b: &mut [u8], s: Recorder)
    requires { length b.old ≡ state_size }
    ensures { b.new ≡ state_bytes s }
{
    write_u32(b, 0, s.total);
    write_u32(b, 4, s.even);
    write_u32(b, 8, s.odd);
    write_u32(b, 12, s.detail);
}

// Whether u is a word of a sample where one is kept, and 0 where none is.
fn is_kept<S: Sample>(kept: bool, u: u32) -> bool
    ensures { result ≡ is_kept S.bytes kept u }
{
    if kept {
        // a word has no bits above its bytes
        u64::from(u) >> (8 * S::bytes()) == 0
    } else {
        u == 0
    }
}

// Whether calls on such samples can have left the state.
#[tactic(auto, unfolding(crate::specs::StateBytes::could_be))]
pub fn could_be<S: Sample>(b: &[u8]) -> bool
    ensures { result ≡ could_be S.bytes b.now }
{
    if b.len() != STATE_SIZE {
        return false;
    }
    let s = read(b);
    let t = s.total as usize;
    t <= MOST_SAMPLES
        && is_kept::<S>(0 < waiting(t), s.even)
        && is_kept::<S>(1 < waiting(t), s.odd)
        && is_kept::<S>(0 < fixed(t), s.detail)
}
