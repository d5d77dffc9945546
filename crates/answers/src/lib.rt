// A refusal's number and place, and the rule for a result buffer that may be too short.
#![tactic(auto)]

ghost use Rattle.std.specs.Prelude.{◌≡◌, min, slice_set};
ghost use Rattle.answers.specs.Refusals.{refusal, none};
ghost use Rattle.answers.specs.Checks.{check, otherwise, moved_round};
ghost use Rattle.answers.specs.Told.{number_of, refused, said, told};

// Number 0: not refused.
#[derive(Clone, Copy)]
pub struct Refusal {
    pub number: u64,
    pub place: u64,
}

impl Refusal {
    pub fn none() -> Refusal
        ensures { result ≡ none }
    {
        Refusal {
            number: 0,
            place: 0,
        }
    }

    pub fn new(number: u64, place: u64) -> Refusal
        ensures { result ≡ refusal number place }
    {
        Refusal { number, place }
    }

    // What one check says.
    pub fn when(test: bool, number: u64, place: u64) -> Refusal
        ensures { result ≡ check test number place }
    {
        if test {
            Refusal { number, place }
        } else {
            Refusal::none()
        }
    }

    // The first of two that refuses.
    pub fn or(self, next: Refusal) -> Refusal
        ensures { result ≡ otherwise self next }
    {
        if self.number == 0 { next } else { self }
    }

    // The same from a start on: its place is that much further. A place has 64 bits.
    pub fn moved(self, start: u64) -> Refusal
        ensures { result ≡ moved_round start self }
    {
        if self.number == 0 {
            return self;
        }
        Refusal::new(self.number, std::num::wrapping_add_u64(start, self.place))
    }
}

// Why something is refused, in the order of the numbers.
#[derive(Clone, Copy, Debug, PartialEq, Eq)]
pub enum Reason {
    Description = 1,
    Bytes = 2,
    Version = 3,
    NameSize = 4,
    Flag = 5,
    Dense = 6,
    NullDomain = 7,
    NotANumber = 8,
    Reversed = 9,
    Tiles = 10,
    LastCells = 11,
    Offset = 12,
    Fanout = 13,
    Levels = 14,
    OutsideParent = 15,
    OutsideDomain = 16,
    Count = 17,
    TileOffsets = 18,
    Window = 19,
    SizesSum = 20,
    Work = 21,
    Runs = 22,
    Infinite = 23,
    BadLine = 24,
    Repeated = 25,
    Room = 26,
    NullCount = 27,
    Retired = 28,
    Grid = 29,
}

impl Reason {
    pub fn number(self) -> u64
        ensures { result ≡ number_of self }
    {
        self as u64
    }

    // Refused for this reason at a place.
    pub fn at(self, place: u64) -> Refused
        ensures { result ≡ refused self place }
    {
        Refused {
            reason: self,
            place,
        }
    }

    // The same as a `Result`.
    #[tactic(auto, unfolding(crate::specs::Told::told))]
    pub fn when(self, test: bool, place: u64) -> Result<(), Refused>
        ensures { told result ≡ check test (number_of self) place }
    {
        if test { Err(self.at(place)) } else { Ok(()) }
    }
}

// The error of whatever checks bytes, a description or a query.
#[derive(Clone, Copy, Debug, PartialEq, Eq)]
pub struct Refused {
    pub reason: Reason,
    pub place: u64,
}

impl Refused {
    // The same from a start on, as above.
    #[tactic(auto, using(crate::proofs::Told::moved_said))]
    pub fn moved(self, start: u64) -> Refused
        ensures { said result ≡ moved_round start (said self) }
    {
        self.reason
            .at(std::num::wrapping_add_u64(start, self.place))
    }
}

// As C and the definitions have it.
impl From<Result<(), Refused>> for Refusal {
    ghost from_gives = { λ answer r. r ≡ told answer };

    #[tactic(auto, unfolding(crate::specs::Told::told))]
    fn from(answer: Result<(), Refused>) -> Refusal {
        match answer {
            Ok(()) => Refusal::none(),
            Err(e) => Refusal::new(e.reason.number(), e.place),
        }
    }
}

// A found tile goes to its place of the buffer, if the buffer has that place.
pub fn keep(out: &mut [u32], at: usize, tile: u32)
    ensures { out.new ≡ slice_set out.old at tile }
{
    if at < out.len() {
        out[at] = tile;
    }
}

// The smaller of two: how many of a found are within b places.
pub fn lesser(a: usize, b: usize) -> usize
    ensures { result ≡ min a b }
{
    if a < b { a } else { b }
}
