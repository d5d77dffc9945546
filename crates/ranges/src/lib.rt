// A range of one dimension: read from bytes or made of patterns, its kind and the patterns of its ends.
#![tactic(auto)]

ghost use Rattle.std.specs.Prelude.{◌≡◌, ◌^◌, ◌<◌};
ghost use Rattle.description.specs.Kinds.{end_bytes};
ghost use Rattle.ranges.specs.Ranges.{kind_of, ends_of, ends_at, fitted, range_of, range_at};

use description::Kind;
use floats::Float;
use ints::Int;

// A minimum and a maximum, of one kind.
#[derive(Clone, Copy)]
pub enum Range {
    I32(i32, i32),
    I64(i64, i64),
    F32(f32, f32),
    F64(f64, f64),
    U64(u64, u64),
}

// The bit patterns of a range's ends.
#[derive(Clone, Copy)]
pub struct Patterns {
    pub low: u64,
    pub high: u64,
}

impl Range {
    pub fn kind(self) -> Kind
        ensures { result ≡ kind_of self }
    {
        match self {
            Range::I32(_, _) => Kind::Int32,
            Range::I64(_, _) => Kind::Int64,
            Range::F32(_, _) => Kind::Float32,
            Range::F64(_, _) => Kind::Float64,
            Range::U64(_, _) => Kind::Uint64,
        }
    }

    // The range of a kind at a place of lent bytes; from 0 to 0 where it is not wholly there.
    #[tactic(auto, unfolding(crate::specs::Ranges::ends_at))]
    pub fn read(bytes: &[u8], at: usize, kind: Kind) -> Range
        ensures { result ≡ range_at kind bytes.now at }
    {
        match kind {
            Kind::Int32 => {
                let ends = order::pair_at(bytes, at);
                Range::I32(i32::of(ends.low), i32::of(ends.high))
            }
            Kind::Int64 => {
                let ends = order::pair_at(bytes, at);
                Range::I64(i64::of(ends.low), i64::of(ends.high))
            }
            Kind::Float32 => {
                let ends = order::pair_at(bytes, at);
                Range::F32(f32::of(ends.low), f32::of(ends.high))
            }
            Kind::Float64 => {
                let ends = order::pair_at(bytes, at);
                Range::F64(f64::of(ends.low), f64::of(ends.high))
            }
            Kind::Uint64 => {
                let ends = order::pair_at(bytes, at);
                Range::U64(ends.low, ends.high)
            }
        }
    }

    // The range of a kind whose ends have these patterns, in their lowest bytes.
    pub fn of(kind: Kind, low: u64, high: u64) -> Range
        ensures { result ≡ range_of kind (fitted kind low) (fitted kind high) }
    {
        match kind {
            Kind::Int32 => Range::I32(i32::of(ints::low_four(low)), i32::of(ints::low_four(high))),
            Kind::Int64 => Range::I64(i64::of(low), i64::of(high)),
            Kind::Float32 => Range::F32(
                f32::of(ints::low_four(low)),
                f32::of(ints::low_four(high)),
            ),
            Kind::Float64 => Range::F64(f64::of(low), f64::of(high)),
            Kind::Uint64 => Range::U64(low, high),
        }
    }

    #[tactic(auto, unfolding(crate::specs::Ranges::ends_of))]
    pub fn patterns(self) -> Patterns
        ensures { (result.low ≡ (ends_of self).low) × (result.high ≡ (ends_of self).high)
            × (result.low < 256 ^ end_bytes (kind_of self)) × (result.high < 256 ^ end_bytes (kind_of self)) }
    {
        match self {
            Range::I32(low, high) => Patterns {
                low: low.bits() as u64,
                high: high.bits() as u64,
            },
            Range::I64(low, high) => Patterns {
                low: low.bits(),
                high: high.bits(),
            },
            Range::F32(low, high) => Patterns {
                low: low.bits() as u64,
                high: high.bits() as u64,
            },
            Range::F64(low, high) => Patterns {
                low: low.bits(),
                high: high.bits(),
            },
            Range::U64(low, high) => Patterns {
                low: low,
                high: high,
            },
        }
    }
}

// The patterns of the range of a kind at a place of lent bytes.
pub fn patterns_at(bytes: &[u8], at: usize, kind: Kind) -> Patterns
    ensures low_value { result.low ≡ (ends_at kind bytes.now at).low }
    ensures high_value { result.high ≡ (ends_at kind bytes.now at).high }
{
    match kind {
        Kind::Int32 | Kind::Float32 => {
            let ends = order::pair_at::<u32>(bytes, at);
            Patterns {
                low: ends.low as u64,
                high: ends.high as u64,
            }
        }
        Kind::Int64 | Kind::Float64 | Kind::Uint64 => {
            let ends = order::pair_at::<u64>(bytes, at);
            Patterns {
                low: ends.low,
                high: ends.high,
            }
        }
    }
}
