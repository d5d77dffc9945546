// The key of a range's end: the order of the ends is that of their keys.
#![tactic(auto)]

ghost use Rattle.std.specs.Prelude.{◌≡◌};
ghost use Rattle.description.specs.Kinds.{key};
ghost use Rattle.ranges.specs.Ranges.{fitted};

use description::Kind;
use floats::Float;
use ints::Int;

// The key of an end's pattern, which is in the lowest bytes of a number: the order of a kind's ends is that of their
// keys.
#[tactic(auto, unfolding(description::specs::Kinds::key))]
pub fn key_of(kind: Kind, pattern: u64) -> u64
    ensures { result ≡ key kind (fitted kind pattern) }
{
    match kind {
        Kind::Int32 => i32::key(ints::low_four(pattern)) as u64,
        Kind::Int64 => i64::key(pattern),
        Kind::Float32 => f32::key(ints::low_four(pattern)) as u64,
        Kind::Float64 => f64::key(pattern),
        Kind::Uint64 => pattern,
    }
}
