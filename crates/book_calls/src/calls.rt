// The calls of the route book.
ghost use Rattle.std.specs.Prelude.{true, ◌≡◌, ◌+◌, ◌≤◌, ◌<◌, length};
ghost use Rattle.base_answers.specs.Answers.{answer_of, plain};
ghost use Rattle.book_entries.specs.Books.{most, data_at, entries_in, is_held};
ghost use Rattle.book_entries.specs.Checks.{most_area, Book, Addable, say_find, say_room};
ghost use Rattle.book_calls.specs.Calls.{fresh_in, added_in, file_put, withdrawn_in, file_out, entry_out, Fresh, Add, Withdraw};

use base_answers::err::{Outcome, Refusal};
use base_moves::{clear, lay, pack};
use base_samples::le::write_u32;
use book_entries::checks::{check_add, check_book, check_held, check_space};
use book_entries::directory::{
    DATA_AT, ENTRY_SIZE, MOST, TOTAL_AT, held, size_at, slot_of, total_of,
};

// An empty directory and no data.
fn lay_fresh(b: &mut [u8])
    requires { data_at ≤ length b.old }
    ensures { b.new ≡ fresh_in b.old }
{
    write_u32(b, 0, MOST as u32);
    clear(b, 4, TOTAL_AT);
    write_u32(b, TOTAL_AT, 0);
}

// A fresh book, whatever stood in the area.
#[tactic(auto, unfolding(book_entries::specs::Checks::say_fresh))]
pub fn fresh(b: &mut [u8]) -> Result<(), Refusal>
    ensures { Fresh b.old (answer_of (plain result)) b.new }
{
    check_space(b.len())?;
    lay_fresh(b);
    Ok(())
}

// The file s behind `total` bytes of data, and the new count.
fn put_file(b: &mut [u8], total: usize, s: &[u8])
    requires { (data_at + total + length s.now ≤ length b.old) × (length b.old ≤ most_area) }
    ensures { b.new ≡ file_put b.old total s.now }
{
    lay(b, DATA_AT + total, s);
    write_u32(b, TOTAL_AT, (total + s.len()) as u32);
}

// The file behind the last one, and its first 14 bytes as the next entry.
fn enter(b: &mut [u8], s: &[u8])
    requires { Addable b.old s.now }
    ensures { b.new ≡ added_in b.old s.now }
{
    let h = held(b);
    put_file(b, total_of(b, h), s);
    lay(b, 4 + ENTRY_SIZE * h, &s[..ENTRY_SIZE]);
}

// Adds a whole file, for its point.
pub fn add(b: &mut [u8], s: &[u8], p: usize) -> Result<(), Refusal>
    ensures { Add b.old p s.now (answer_of (plain result)) b.new }
{
    check_add(b, s, p)?;
    enter(b, s);
    Ok(())
}

// Where the file of point p stands, and how many bytes it has.
#[tactic(auto, using(book_entries::proofs::Laid::room), unfolding(book_entries::specs::Checks::say_find))]
pub fn find(b: &[u8], p: usize) -> Outcome
    ensures { result ≡ say_find b.now p }
{
    check_held(b, p)?;
    let i = slot_of(b, p, 0, held(b));
    Ok((DATA_AT + total_of(b, i), size_at(b, i)))
}

// The file of entry i, of h that are held, taken out of the data: what stands behind it moved down, and the new count.
#[tactic(auto, using(book_entries::proofs::Laid::room))]
fn take_file(b: &mut [u8], i: usize, h: usize)
    requires { Book b.old × (h ≡ length (entries_in b.old)) × (i < h) }
    ensures { b.new ≡ file_out b.old i }
{
    let place = total_of(b, i);
    let size = size_at(b, i);
    let total = total_of(b, h);
    pack(b, DATA_AT + place, size, total - place - size);
    write_u32(b, TOTAL_AT, (total - size) as u32);
}

// Entry i taken out of the directory: those behind it moved down, and the last one cleared.
fn drop_entry(b: &mut [u8], i: usize)
    requires { (i < most) × (data_at ≤ length b.old) }
    ensures { b.new ≡ entry_out b.old i }
{
    pack(
        b,
        4 + ENTRY_SIZE * i,
        ENTRY_SIZE,
        ENTRY_SIZE * (MOST - 1 - i),
    );
    clear(b, TOTAL_AT - ENTRY_SIZE, TOTAL_AT);
}

// The entry and the file of point p taken out, and what stands behind each moved down.
#[tactic(auto, using(book_entries::proofs::Laid::room))]
fn take_out(b: &mut [u8], p: usize)
    requires { Book b.old × (is_held p (entries_in b.old) ≡ true) }
    ensures { b.new ≡ withdrawn_in b.old p }
{
    let h = held(b);
    let i = slot_of(b, p, 0, h);
    take_file(b, i, h);
    drop_entry(b, i);
}

// The file of point p is no longer held, and its room is free.
#[tactic(auto, unfolding(book_entries::specs::Checks::say_withdraw))]
pub fn withdraw(b: &mut [u8], p: usize) -> Result<(), Refusal>
    ensures { Withdraw b.old p (answer_of (plain result)) b.new }
{
    check_held(b, p)?;
    take_out(b, p);
    Ok(())
}

// The room that is free, and how many points are held.
#[tactic(auto, using(book_entries::proofs::Laid::room), unfolding(book_entries::specs::Checks::say_room))]
pub fn room(b: &[u8]) -> Outcome
    ensures { result ≡ say_room b.now }
{
    check_book(b)?;
    let h = held(b);
    Ok((b.len() - DATA_AT - total_of(b, h), h))
}
