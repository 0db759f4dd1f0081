// All the coefficients that a piece fixes, and the state after it. Once over the sample. `Taking` stays a clause: it is a fact about a state and a piece together, which no one value holds.
ghost use Rattle.std.specs.Prelude.{◌++◌, ◌≡◌, ◌-◌, ◌/◌, ◌<◌, length, take};
ghost use Rattle.base_samples.specs.Words.{tabulate, bytes_of, Holds, Front};
ghost use Rattle.filter_cdf53i.specs.Bands.{low, high, detail_word};
ghost use Rattle.stream_pieces.specs.States.{state_of, stand_in, fixed_by};
ghost use Rattle.stream_pieces.specs.Steps.{newly, Taking};
ghost use Rattle.stream_calls.specs.Loops.{Inner, approx_among, Others};

use base_samples::integers::{Sample, count};
use filter_cdf53i::steps::{approx_of, detail_at};
use stream_pieces::borders::{first, last_detail, word_of};
use stream_pieces::recorder::{Recorder, waiting};

// The first details of the samples in z, as many as d holds: no neighbour is mirrored.
fn details_on<S: Sample>(z: &[u8], d: &mut [u8])
    requires { Inner S.bytes z.now d.old }
    ensures { Front S.bytes (length d.old / S.bytes) (length d.old / S.bytes) (detail_word S.bytes z.now) d.new }
{
    for j in 0..count::<S>(d) {
        S::put(d, j, detail_at::<S>(z, j, j + 1));
    }
}

// The approximations of the even samples in z, as many as a holds, each between two of the details in d.
fn approxs_on<S: Sample>(z: &[u8], a: &mut [u8], d: &[u8])
    requires { Inner S.bytes z.now a.old × (length a.old / S.bytes < length d.now / S.bytes) }
    ensures { Front S.bytes (length a.old / S.bytes) (length a.old / S.bytes) (approx_among S.bytes z.now d.now) a.new }
{
    for j in 0..count::<S>(a) {
        S::put(
            a,
            j,
            approx_of(S::get(z, 2 * j), S::get(d, j), S::get(d, j + 1)),
        );
    }
}

// The coefficients of each band after the first: they read the samples in z alone.
fn others<S: Sample>(z: &[u8], a: &mut [u8], d: &mut [u8])
    requires { Others S.bytes (length d.old / S.bytes) z.now a.old d.old }
    ensures d_after { d.new ≡ take S.bytes d.old ++ bytes_of S.bytes (tabulate (length d.old / S.bytes - 1) (detail_word S.bytes z.now)) }
    ensures a_after { a.new ≡ take S.bytes a.old ++ bytes_of S.bytes (tabulate (length d.old / S.bytes - 1) (approx_among S.bytes z.now d.new)) }
{
    let k = S::bytes();
    details_on::<S>(z, &mut d[k..]);
    approxs_on::<S>(z, &mut a[k..], d);
}

// All that a piece fixes, into areas that hold just that.
fn fix<S: Sample>(s: Recorder, y: &[u8], a: &mut [u8], d: &mut [u8])
    requires taking { Taking S.bytes s y.now }
    requires holds { Holds S.bytes (newly S.bytes s y.now) a.old × Holds S.bytes (newly S.bytes s y.now) d.old }
    ensures a_after { a.new ≡ fixed_by low S.bytes s y.now }
    ensures d_after { d.new ≡ fixed_by high S.bytes s y.now }
{
    if d.is_empty() {
        return;
    }
    first::<S>(s, y, a, d);
    // from the even sample on with which the first new detail ends
    let at = S::bytes() * (2 - waiting(s.total as usize));
    others::<S>(&y[at..], a, d);
}

// The state after a piece, whose details are in d.
fn next<S: Sample>(s: Recorder, y: &[u8], d: &[u8]) -> Recorder
    requires taking { Taking S.bytes s y.now }
    requires d_value { d.now ≡ fixed_by high S.bytes s y.now }
    ensures { result ≡ state_of S.bytes (stand_in S.bytes s ++ y.now) }
{
    let n = count::<S>(d);
    Recorder {
        total: s.total + count::<S>(y) as u32,
        even: word_of::<S>(s, y, 2 * n).to_word(),
        odd: word_of::<S>(s, y, 2 * n + 1).to_word(),
        detail: last_detail::<S>(s, d),
    }
}

// A piece: what it fixes, and the state after it.
pub fn advance<S: Sample>(s: Recorder, y: &[u8], a: &mut [u8], d: &mut [u8]) -> Recorder
    requires taking { Taking S.bytes s y.now }
    requires holds { Holds S.bytes (newly S.bytes s y.now) a.old × Holds S.bytes (newly S.bytes s y.now) d.old }
    ensures value { result ≡ state_of S.bytes (stand_in S.bytes s ++ y.now) }
    ensures a_after { a.new ≡ fixed_by low S.bytes s y.now }
    ensures d_after { d.new ≡ fixed_by high S.bytes s y.now }
{
    fix::<S>(s, y, a, d);
    next::<S>(s, y, d)
}
