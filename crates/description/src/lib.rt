// Kinds, the description and its limits: what comes with the bytes.
#![tactic(auto)]

ghost use Rattle.std.specs.Prelude.{◌≡◌};
ghost use Rattle.answers.specs.Told.{number_of, told};
ghost use Rattle.description.specs.Limits.{least_tiles, most_tiles, least_fanout, most_fanout, outside};
ghost use Rattle.description.specs.Kinds.{range_bytes, datatype, kind_of_datatype, IsKindOf, float_of, is_float32, is_float};
ghost use Rattle.description.specs.Description.{limits_refusal, kinds_refusal, retired_refusal, float_refusal};
ghost use Rattle.description.specs.Description.{description_refusal, sides_of, bytes_of_box};

use answers::{Reason, Refused};

#[derive(Clone, Copy, Debug, PartialEq, Eq)]
pub enum Kind {
    Int32,
    Int64,
    Float32,
    Float64,
    Uint64,
}

#[derive(Clone, Copy)]
pub struct Dimension {
    pub kind: Kind,
}

// D dimensions, of which the first D of `kinds` are the kinds; N entries in each per-field list; the capacity C in
// cells.
#[derive(Clone, Copy)]
pub struct Description {
    pub dimensions: u64,
    pub kinds: [Dimension; 4],
    pub fields: u64,
    pub capacity: u64,
}

impl Kind {
    // The bytes of a stored range.
    pub fn range_bytes(self) -> usize
        ensures { result ≡ range_bytes self }
    {
        match self {
            Kind::Int32 => 8,
            Kind::Int64 => 16,
            Kind::Float32 => 8,
            Kind::Float64 => 16,
            Kind::Uint64 => 16,
        }
    }

    // TileDB's Datatype number.
    pub fn datatype(self) -> u64
        ensures { result ≡ datatype self }
    {
        match self {
            Kind::Int32 => 0,
            Kind::Int64 => 1,
            Kind::Float32 => 2,
            Kind::Float64 => 3,
            Kind::Uint64 => 10,
        }
    }

    // Is it the kind that dimensions no longer have?
    pub fn is_float32(self) -> bool
        ensures { result ≡ is_float32 self }
    {
        self.is_float_of(false)
    }

    // Is it one that a dense array's dimensions don't have?
    pub fn is_float(self) -> bool
        ensures { result ≡ is_float self }
    {
        self.is_float_of(true)
    }

    fn is_float_of(self, both: bool) -> bool
        ensures { result ≡ float_of both self }
    {
        match self {
            Kind::Int32 => false,
            Kind::Int64 => false,
            Kind::Float32 => true,
            Kind::Float64 => both,
            Kind::Uint64 => false,
        }
    }

    // The kind of a Datatype number; of any other number int32, whose own number is another.
    pub fn of(datatype: u64) -> Kind
        ensures { result ≡ kind_of_datatype datatype }
    {
        Kind::try_from(datatype).unwrap_or(Kind::Int32)
    }
}

// A Datatype number that is no kind's.
#[derive(Clone, Copy, Debug, PartialEq, Eq)]
pub struct UnknownKind(pub u64);

// The kind of a Datatype number.
impl TryFrom<u64> for Kind {
    type Error = UnknownKind;

    ghost try_from_gives = { IsKindOf };

    #[tactic(auto, unfolding(crate::specs::Kinds::kind_of_datatype))]
    fn try_from(datatype: u64) -> Result<Kind, UnknownKind> {
        match datatype {
            0 => Ok(Kind::Int32),
            1 => Ok(Kind::Int64),
            2 => Ok(Kind::Float32),
            3 => Ok(Kind::Float64),
            10 => Ok(Kind::Uint64),
            _ => Err(UnknownKind(datatype)),
        }
    }
}

impl Description {
    pub const LEAST_DIMENSIONS: u64 = 1;

    pub const MOST_DIMENSIONS: u64 = 4;

    pub const LEAST_FIELDS: u64 = 1;

    pub const MOST_FIELDS: u64 = 64;

    pub const LEAST_CAPACITY: u64 = 1;

    pub const MOST_CAPACITY: u64 = 1_000_000_000;

    pub const LEAST_VERSION: u32 = 16;

    pub const MOST_VERSION: u32 = 21;

    pub const LEAST_NAME: u64 = 1;

    pub const MOST_NAME: u64 = 255;

    pub const LEAST_TILES: u64 = 1;

    pub const MOST_TILES: u64 = 16_777_216;

    pub const LEAST_FANOUT: u32 = 2;

    pub const MOST_FANOUT: u32 = 1_024;

    // 1, and directly after it 28.
    #[tactic(auto, using(answers::proofs::Told::halts, answers::proofs::Told::goes_on))]
    pub fn check(self) -> Result<(), Refused>
        ensures { told result ≡ description_refusal self }
    {
        self.check_limits()?;
        self.check_retired()
    }

    // Refusal 1 at place 0 where D, N or C is outside its limits.
    #[tactic(auto, using(answers::proofs::Told::stops, answers::proofs::Told::passes, answers::proofs::Checks::ended), unfolding(crate::specs::Description::limits_refusal))]
    pub fn check_limits(self) -> Result<(), Refused>
        ensures { told result ≡ limits_refusal self }
    {
        let dimensions = outside(
            Description::LEAST_DIMENSIONS,
            Description::MOST_DIMENSIONS,
            self.dimensions,
        );
        Reason::Description.when(dimensions, 0)?;
        let fields = outside(
            Description::LEAST_FIELDS,
            Description::MOST_FIELDS,
            self.fields,
        );
        Reason::Description.when(fields, 0)?;
        let capacity = outside(
            Description::LEAST_CAPACITY,
            Description::MOST_CAPACITY,
            self.capacity,
        );
        Reason::Description.when(capacity, 0)
    }

    // 28 at the first float32 dimension.
    #[tactic(auto, unfolding(crate::specs::Description::retired_refusal, answers::specs::Told::number_of))]
    pub fn check_retired(self) -> Result<(), Refused>
        ensures { told result ≡ retired_refusal self }
    {
        self.check_kinds(false, Reason::Retired)
    }

    // 29 at the first float dimension.
    #[tactic(auto, unfolding(crate::specs::Description::float_refusal, answers::specs::Told::number_of))]
    pub fn check_floats(self) -> Result<(), Refused>
        ensures { told result ≡ float_refusal self }
    {
        self.check_kinds(true, Reason::Grid)
    }

    fn check_kinds(self, both: bool, reason: Reason) -> Result<(), Refused>
        ensures { told result ≡ kinds_refusal (float_of both) (number_of reason) self }
    {
        let n = sides_of(self.dimensions);
        for i in 0..n {
            reason.when(self.kinds[i].kind.is_float_of(both), i as u64)?;
        }
        Ok(())
    }

    // Is n below or above its limits?
    pub fn tiles_outside(n: u64) -> bool
        ensures { result ≡ outside least_tiles most_tiles n }
    {
        outside(Description::LEAST_TILES, Description::MOST_TILES, n)
    }

    // Is f?
    pub fn fanout_outside(f: u64) -> bool
        ensures { result ≡ outside least_fanout most_fanout f }
    {
        let least = Description::LEAST_FANOUT as u64;
        outside(least, Description::MOST_FANOUT as u64, f)
    }

    // B, the bytes of a box.
    pub fn box_bytes(self) -> usize
        ensures { result ≡ bytes_of_box self }
    {
        let n = sides_of(self.dimensions);
        let mut sum: usize = 0;
        for i in 0..n {
            sum += self.kinds[i].kind.range_bytes();
        }
        sum
    }
}

// How many sides of a box count: one a dimension, and no more than there are.
pub fn sides_of(dimensions: u64) -> usize
    ensures { result ≡ sides_of dimensions }
{
    dimensions.min(Description::MOST_DIMENSIONS) as usize
}

// Whether x is below the least or above the most.
pub fn outside(least: u64, most: u64, x: u64) -> bool
    ensures { result ≡ outside least most x }
{
    x < least || most < x
}
