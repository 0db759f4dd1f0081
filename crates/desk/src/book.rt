// The route book's calls.
ghost use Rattle.std.specs.Prelude.{◌≡◌};
ghost use Rattle.base_answers.specs.Answers.{answer_of};
ghost use Rattle.book_entries.specs.Checks.{say_find, say_room};
ghost use Rattle.book_calls.specs.Calls.{Fresh, Add, Withdraw};

use base_answers::err::Answer;
use book_calls::calls::{add, find, fresh, room, withdraw};

#[unsafe(no_mangle)]
pub extern "C" fn bk_book_fresh(area: &mut [u8]) -> Answer
    ensures { Fresh area.old result area.new }
{
    Answer::from(fresh(area))
}

#[unsafe(no_mangle)]
pub extern "C" fn bk_book_add(area: &mut [u8], file: &[u8], point: u32) -> Answer
    ensures { Add area.old point file.now result area.new }
{
    Answer::from(add(area, file, point as usize))
}

// Where the file of a point stands, from the area's first byte on, and how long it is.
#[unsafe(no_mangle)]
pub extern "C" fn bk_book_find(area: &[u8], point: u32) -> Answer
    ensures { result ≡ answer_of (say_find area.now point) }
{
    Answer::from(find(area, point as usize))
}

#[unsafe(no_mangle)]
pub extern "C" fn bk_book_withdraw(area: &mut [u8], point: u32) -> Answer
    ensures { Withdraw area.old point result area.new }
{
    Answer::from(withdraw(area, point as usize))
}

// The free room in bytes, and how many points are held.
#[unsafe(no_mangle)]
pub extern "C" fn bk_book_room(area: &[u8]) -> Answer
    ensures { result ≡ answer_of (say_room area.now) }
{
    Answer::from(room(area))
}
