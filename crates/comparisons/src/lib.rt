// Two ranges compared: does one lie inside the other, does one meet the other?
#![tactic(auto)]

ghost use Rattle.std.specs.Prelude.{◌≡◌, ◌&&◌, leb};
ghost use Rattle.order.specs.Key.{float_at_most};
ghost use Rattle.ranges.specs.Ranges.{ends_of, inside, meets};

use floats::Float;
use ints::Int;
use ranges::Range;

// Inside or equal. Of another kind it is not.
#[tactic(auto, unfolding(ranges::specs::Ranges::ends_of, ranges::specs::Ranges::inside, description::specs::Kinds::at_most, description::specs::Kinds::is_nan, description::specs::Kinds::key, order::specs::Key::float_at_most))]
pub fn inside(range: Range, outer: Range) -> bool
    ensures { result ≡ inside (ends_of range) (ends_of outer) }
{
    match range {
        Range::I32(low, high) => match outer {
            Range::I32(least, most) => ints_in_order(least, low, high, most),
            _ => false,
        },
        Range::I64(low, high) => match outer {
            Range::I64(least, most) => ints_in_order(least, low, high, most),
            _ => false,
        },
        Range::F32(low, high) => match outer {
            Range::F32(least, most) => floats_in_order(least, low, high, most),
            _ => false,
        },
        Range::F64(low, high) => match outer {
            Range::F64(least, most) => floats_in_order(least, low, high, most),
            _ => false,
        },
        Range::U64(low, high) => match outer {
            Range::U64(least, most) => ints_in_order(least, low, high, most),
            _ => false,
        },
    }
}

// Edges included. A range with NaN meets nothing, nor does one of another kind.
#[tactic(auto, unfolding(ranges::specs::Ranges::ends_of, ranges::specs::Ranges::meets, description::specs::Kinds::at_most, description::specs::Kinds::is_nan, description::specs::Kinds::key, order::specs::Key::float_at_most))]
pub fn meets(range: Range, window: Range) -> bool
    ensures { result ≡ meets (ends_of range) (ends_of window) }
{
    match range {
        Range::I32(low, high) => match window {
            Range::I32(least, most) => ints_in_order(low, most, least, high),
            _ => false,
        },
        Range::I64(low, high) => match window {
            Range::I64(least, most) => ints_in_order(low, most, least, high),
            _ => false,
        },
        Range::F32(low, high) => match window {
            Range::F32(least, most) => floats_in_order(low, most, least, high),
            _ => false,
        },
        Range::F64(low, high) => match window {
            Range::F64(least, most) => floats_in_order(low, most, least, high),
            _ => false,
        },
        Range::U64(low, high) => match window {
            Range::U64(least, most) => ints_in_order(low, most, least, high),
            _ => false,
        },
    }
}

// Is a at most b, and c at most d?
fn ints_in_order<I: Int>(a: I, b: I, c: I, d: I) -> bool
    ensures { result ≡ (leb (I.key (I.pattern a)) (I.key (I.pattern b))
        && leb (I.key (I.pattern c)) (I.key (I.pattern d))) }
{
    a.at_most(b) && c.at_most(d)
}

// The same of floats.
fn floats_in_order<F: Float>(a: F, b: F, c: F, d: F) -> bool
    ensures { result ≡ (float_at_most F.format (F.pattern a) (F.pattern b)
        && float_at_most F.format (F.pattern c) (F.pattern d)) }
{
    a.at_most(b) && c.at_most(d)
}
