// The checks of every book call, in document 02's order.
ghost use Rattle.std.specs.Prelude.{◌≡◌, ◌+◌, ◌≤◌, ◌<◌, length, drop};
ghost use Rattle.base_answers.specs.Answers.{plain};
ghost use Rattle.base_answers.specs.Checks.{passes};
ghost use Rattle.book_entries.specs.Books.{most, data_at, entry_at, entries_in, is_head, is_only, are_entries, all_zero, has_total, could_be};
ghost use Rattle.book_entries.specs.Checks.{Book, space_checks, book_checks, room_checks, held_checks, say_add};

use crate::directory::{DATA_AT, ENTRY_SIZE, MOST, TOTAL_AT, entry, held, slot_of, total_of};
use base_answers::err::Refusal;
use base_samples::le::read_u32;
use file_open::head::is_count;
use file_open::open::{check_fields, check_file, own_width};

// An area can be of any length that a count of 4 bytes tells.
const MOST_AREA: usize = u32::MAX as usize;

// Whether a file can begin with entry i.
fn is_head(b: &[u8], i: usize) -> bool
    requires { (i < most) × (data_at ≤ length b.now) }
    ensures { result ≡ is_head (entry_at b.now i) }
{
    let count = read_u32(b, 4 + ENTRY_SIZE * i) as usize;
    if !is_count(count) {
        return false;
    }
    let h = entry(b, i);
    check_fields(h, h.width, h.point).is_ok()
}

// Whether entry i can begin a file, and no entry behind it, of the h that are held, has its point.
#[tactic(auto, using(crate::proofs::Entries::walk))]
fn is_only(b: &[u8], i: usize, h: usize) -> bool
    requires { (i < h) × (h ≡ length (entries_in b.now)) × (data_at ≤ length b.now) }
    ensures { result ≡ is_only (entry_at b.now i) (drop (i + 1) (entries_in b.now)) }
{
    is_head(b, i) && h <= slot_of(b, entry(b, i).point, i + 1, h)
}

fn are_entries(b: &[u8], h: usize) -> bool
    requires { (h ≡ length (entries_in b.now)) × (data_at ≤ length b.now) }
    ensures { result ≡ are_entries (entries_in b.now) }
{
    (0..h).all(|i| is_only(b, i, h))
}

#[tactic(auto, unfolding(crate::specs::Books::all_zero))]
fn all_zero(s: &[u8]) -> bool
    ensures { result ≡ all_zero s.now }
{
    s.iter().all(|&x| x == 0)
}

// Whether the data's count is what the h entries that are held say, and the area has so much.
#[tactic(auto, using(crate::proofs::Entries::walk))]
fn has_total(b: &[u8], h: usize) -> bool
    requires { (h ≡ length (entries_in b.now)) × (data_at ≤ length b.now) }
    ensures { result ≡ has_total b.now }
{
    let total = total_of(b, h);
    read_u32(b, TOTAL_AT) as usize == total && DATA_AT + total <= b.len()
}

// Whether calls can have left this directory and these counts. The data is not looked at.
#[tactic(auto, using(crate::proofs::Entries::walk), unfolding(crate::specs::Books::could_be))]
fn could_be(b: &[u8]) -> bool
    requires { data_at ≤ length b.now }
    ensures { result ≡ could_be b.now }
{
    if read_u32(b, 0) as usize != MOST {
        return false;
    }
    let h = held(b);
    are_entries(b, h) && all_zero(&b[4 + ENTRY_SIZE * h..TOTAL_AT]) && has_total(b, h)
}

// An area of n bytes.
pub fn check_space(n: usize) -> Result<(), Refusal>
    ensures { result ≡ passes (space_checks n) }
{
    if MOST_AREA < n {
        return Err(Refusal::TooLong);
    }
    if n < DATA_AT {
        return Err(Refusal::NoRoom(n, DATA_AT));
    }
    Ok(())
}

// A book, in an area that has room for one.
pub fn check_book(b: &[u8]) -> Result<(), Refusal>
    ensures { result ≡ passes (book_checks b.now) }
{
    check_space(b.len())?;
    if !could_be(b) {
        return Err(Refusal::BadCount(0, 0));
    }
    Ok(())
}

// A book that holds point p.
pub fn check_held(b: &[u8], p: usize) -> Result<(), Refusal>
    ensures { result ≡ passes (held_checks b.now p) }
{
    check_book(b)?;
    let h = held(b);
    if h <= slot_of(b, p, 0, h) {
        return Err(Refusal::NotHeld);
    }
    Ok(())
}

// Room for a file of n bytes for point p, in a book.
#[tactic(auto, using(crate::proofs::Laid::room))]
fn check_room(b: &[u8], p: usize, n: usize) -> Result<(), Refusal>
    requires { Book b.now }
    ensures { result ≡ passes (room_checks b.now p n) }
{
    let h = held(b);
    if slot_of(b, p, 0, h) < h {
        return Err(Refusal::AlreadyHeld);
    }
    if MOST <= h {
        return Err(Refusal::BookFull);
    }
    if b.len() - DATA_AT - total_of(b, h) < n {
        return Err(Refusal::BookFull);
    }
    Ok(())
}

// What adding says: a book, a whole file for point p, since only a whole one gives level 0, and room for it.
#[tactic(auto, using(crate::proofs::Passed::add_in_turn))]
pub fn check_add(b: &[u8], s: &[u8], p: usize) -> Result<(), Refusal>
    ensures { plain result ≡ say_add b.now p s.now }
{
    check_book(b)?;
    let (level, _) = check_file(s, own_width(s), p)?;
    if 0 < level {
        return Err(Refusal::CutShort(s.len()));
    }
    check_room(b, p, s.len())
}
