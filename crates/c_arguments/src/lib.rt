// What C lends, as the library takes it: a description that comes as numbers, and a window that comes as Datatype
// numbers and bytes.
#![tactic(auto)]

ghost use Rattle.std.specs.Prelude.{◌≡◌, cond};
ghost use Rattle.c_arguments.specs.Described.{is_kind_at, all_kinds, numbered_dimensions, describe};
ghost use Rattle.c_arguments.specs.Windows.{other_side, window_of_bytes};

use boxes::{Side, Window};
use description::{Description, Dimension, Kind};
use ranges::Range;

// The description of numbers.
pub fn describe(kinds: &[u8], fields: u64, capacity: u64) -> Description
    ensures { result ≡ describe kinds.now fields capacity }
{
    let dims = dimensions_of(kinds);
    let count = or_zero(all_kinds(kinds), kinds.len() as u64);
    Description {
        dimensions: count,
        kinds: dims,
        fields,
        capacity,
    }
}

// The window of Datatype numbers and bytes.
pub fn window_of(description: Description, numbers: &[u8], ends: &[u8]) -> Window
    ensures { result ≡ window_of_bytes description numbers.now ends.now }
{
    let dims = dimensions_of(numbers);
    let count = numbers.len() as u64;
    let read = boxes::read_box(ends, dims, count);
    let kinds = description.kinds;
    let a = side_or_other(numbers, 0, read[0], kinds[0]);
    let b = side_or_other(numbers, 1, read[1], kinds[1]);
    let c = side_or_other(numbers, 2, read[2], kinds[2]);
    let d = side_or_other(numbers, 3, read[3], kinds[3]);
    Window {
        dimensions: count,
        sides: [a, b, c, d],
    }
}

// A number, or 0 where a test fails.
pub fn or_zero(test: bool, x: u64) -> u64
    ensures { result ≡ cond test x 0 }
{
    if test { x } else { 0 }
}

pub fn dimensions_of(numbers: &[u8]) -> [Dimension; 4]
    ensures { result ≡ numbered_dimensions numbers.now }
{
    let a = Kind::of(order::byte_at(numbers, 0));
    let b = Kind::of(order::byte_at(numbers, 1));
    let c = Kind::of(order::byte_at(numbers, 2));
    let d = Kind::of(order::byte_at(numbers, 3));
    [
        Dimension { kind: a },
        Dimension { kind: b },
        Dimension { kind: c },
        Dimension { kind: d },
    ]
}

#[tactic(auto, unfolding(crate::specs::Described::all_kinds))]
fn all_kinds(numbers: &[u8]) -> bool
    ensures { result ≡ all_kinds numbers.now }
{
    is_kind_at(numbers, 0)
        && (is_kind_at(numbers, 1) && (is_kind_at(numbers, 2) && is_kind_at(numbers, 3)))
}

// Is number i some kind's?
fn is_kind_at(numbers: &[u8], i: usize) -> bool
    ensures { result ≡ is_kind_at numbers.now i }
{
    Kind::try_from(order::byte_at(numbers, i)).is_ok()
}

// The side as read, or one of another kind than the description's where its number is no kind's.
fn side_or_other(numbers: &[u8], i: usize, read: Side, described: Dimension) -> Side
    ensures { result ≡ cond (is_kind_at numbers.now i) read (other_side described.kind) }
{
    if is_kind_at(numbers, i) {
        return read;
    }
    if described.kind == Kind::Int32 {
        return Side {
            range: Range::I64(0, 0),
        };
    }
    Side {
        range: Range::I32(0, 0),
    }
}
