// The refusals, and the three numbers in which a call answers. Names are those of osclet's src/err.rs where it has one.
ghost use Rattle.std.specs.Prelude.{◌≡◌, Err};
ghost use Rattle.base_answers.specs.Answers.{say, answer_of, plain};

// The check that refused, with the values that document 01's table names; from 14 on document 02 has the numbers.
// DetailsSizeNotMatches is osclet's name too, though none of the files that were ported returns it.
#[derive(Clone, Copy)]
pub enum Refusal {
    MinFilterSize(usize, usize),
    ApproxSizeNotMatches(usize, usize),
    OutputSizeIsNotValid(usize, usize),
    BufferWasTooSmallForLevel,
    ZeroedBaseSize,
    TooLong,
    NoRoom(usize, usize),
    OtherWidth(usize, usize),
    BadCount(usize, usize),
    CutShort(usize),
    OtherPoint(usize, usize),
    Trailing(usize),
    NoSuchPlace(usize, usize),
    BookFull,
    AlreadyHeld,
    NotHeld,
    DetailsSizeNotMatches(usize, usize),
    NoRate,
}

// What a call says: the two values of a done one, or the first check that refused.
pub type Outcome = Result<(usize, usize), Refusal>;

// The three numbers that the desk reads.
#[repr(C)]
#[derive(Clone, Copy, PartialEq, Eq)]
pub struct Answer {
    pub number: u32,
    pub first: u64,
    pub second: u64,
}

fn tell(number: u32, first: usize, second: usize) -> Answer
    ensures { result ≡ say number first second }
{
    Answer {
        number,
        first: first as u64,
        second: second as u64,
    }
}

// The number and the two values of each case.
impl From<Refusal> for Answer {
    ghost from_gives = { λ e r. r ≡ answer_of (Err e) };

    fn from(e: Refusal) -> Answer {
        match e {
            Refusal::MinFilterSize(a, b) => tell(1, a, b),
            Refusal::ApproxSizeNotMatches(a, b) => tell(2, a, b),
            Refusal::OutputSizeIsNotValid(a, b) => tell(3, a, b),
            Refusal::BufferWasTooSmallForLevel => tell(4, 0, 0),
            Refusal::ZeroedBaseSize => tell(5, 0, 0),
            Refusal::TooLong => tell(6, 0, 0),
            Refusal::NoRoom(a, b) => tell(7, a, b),
            Refusal::OtherWidth(a, b) => tell(8, a, b),
            Refusal::BadCount(a, b) => tell(9, a, b),
            Refusal::CutShort(a) => tell(10, a, 0),
            Refusal::OtherPoint(a, b) => tell(11, a, b),
            Refusal::Trailing(a) => tell(12, a, 0),
            Refusal::NoSuchPlace(a, b) => tell(13, a, b),
            Refusal::BookFull => tell(14, 0, 0),
            Refusal::AlreadyHeld => tell(15, 0, 0),
            Refusal::NotHeld => tell(16, 0, 0),
            Refusal::DetailsSizeNotMatches(a, b) => tell(17, a, b),
            Refusal::NoRate => tell(18, 0, 0),
        }
    }
}

impl From<Outcome> for Answer {
    ghost from_gives = { λ s r. r ≡ answer_of s };

    fn from(s: Outcome) -> Answer {
        match s {
            Ok((first, second)) => tell(0, first, second),
            Err(e) => Answer::from(e),
        }
    }
}

// A call that has nothing to tell where it is done.
impl From<Result<(), Refusal>> for Answer {
    ghost from_gives = { λ s r. r ≡ answer_of (plain s) };

    fn from(s: Result<(), Refusal>) -> Answer {
        match s {
            Ok(()) => tell(0, 0, 0),
            Err(e) => Answer::from(e),
        }
    }
}
