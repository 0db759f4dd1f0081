// A recording in pieces, one level of integer 5/3: the next piece, and the end, which writes the rest and leaves a fresh state.
ghost use Rattle.stream_calls.specs.Calls.{Piece, Finish};

use base_answers::err::Answer;
use stream_calls::calls::{finish, piece};

#[unsafe(no_mangle)]
pub extern "C" fn bk_stream_piece_i8(
    state: &mut [u8],
    y: &[u8],
    a: &mut [u8],
    d: &mut [u8],
) -> Answer
    ensures { Piece 1 state.old y.now a.old d.old result state.new a.new d.new }
{
    Answer::from(piece::<u8>(state, y, a, d))
}

#[unsafe(no_mangle)]
pub extern "C" fn bk_stream_piece_i16(
    state: &mut [u8],
    y: &[u8],
    a: &mut [u8],
    d: &mut [u8],
) -> Answer
    ensures { Piece 2 state.old y.now a.old d.old result state.new a.new d.new }
{
    Answer::from(piece::<u16>(state, y, a, d))
}

#[unsafe(no_mangle)]
pub extern "C" fn bk_stream_piece_i32(
    state: &mut [u8],
    y: &[u8],
    a: &mut [u8],
    d: &mut [u8],
) -> Answer
    ensures { Piece 4 state.old y.now a.old d.old result state.new a.new d.new }
{
    Answer::from(piece::<u32>(state, y, a, d))
}

#[unsafe(no_mangle)]
pub extern "C" fn bk_stream_finish_i8(state: &mut [u8], a: &mut [u8], d: &mut [u8]) -> Answer
    ensures { Finish 1 state.old a.old d.old result state.new a.new d.new }
{
    Answer::from(finish::<u8>(state, a, d))
}

#[unsafe(no_mangle)]
pub extern "C" fn bk_stream_finish_i16(state: &mut [u8], a: &mut [u8], d: &mut [u8]) -> Answer
    ensures { Finish 2 state.old a.old d.old result state.new a.new d.new }
{
    Answer::from(finish::<u16>(state, a, d))
}

#[unsafe(no_mangle)]
pub extern "C" fn bk_stream_finish_i32(state: &mut [u8], a: &mut [u8], d: &mut [u8]) -> Answer
    ensures { Finish 4 state.old a.old d.old result state.new a.new d.new }
{
    Answer::from(finish::<u32>(state, a, d))
}
