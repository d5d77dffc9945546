// The R-tree body written from its leaves: everything is checked first, by `leaves`; then the leaves go to their place,
// and each level is made of the one below it, where that stands in the output buffer.
#![tactic(auto)]

ghost use Rattle.std.specs.Prelude.{◌≡◌, cond, ◌++◌, ◌+◌, ◌-◌, ◌*◌, ◌%◌, ◌^◌, ◌≤◌, ◌<◌, ltb, length, drop};
ghost use Rattle.answers.specs.Runs.{join};
ghost use Rattle.std.specs.Float.Ieee.{lt, le};
ghost use Rattle.std.proofs.lemmas.List.Edits.{sets};
ghost use Rattle.std.specs.Int.{w32};
ghost use Rattle.order.specs.Key.{signed_key};
ghost use Rattle.order.specs.Little.{bytes_of};
ghost use Rattle.description.specs.Kinds.{end_bytes, range_bytes, key};
ghost use Rattle.description.specs.Description.{sides_of, bytes_of_box};
ghost use Rattle.ranges.specs.Ranges.{ends_at};
ghost use Rattle.boxes.specs.Least.{around};
ghost use Rattle.tree.specs.Shape.{body_bytes, place_in, count_in};
ghost use Rattle.written.specs.Body.{written_body};
ghost use Rattle.written.specs.Writing.{told_writing, write_answer, write_buffer};
ghost use Rattle.leaves.specs.Code.Sound.{box_in};
ghost use Rattle.writer.specs.Code.Rows.{side_of, parent_of, level_of, LeastEnds, NoNan};
ghost use Rattle.writer.specs.Code.Rows.{SideRow, Row, Levels, Filling};

use answers::Refused;
use description::{Description, Kind};
use ints::Int;
use ranges::Patterns;

// The whole body goes to the start of the buffer, if it has the room.
pub fn write(
    description: Description,
    tiles: u64,
    fanout: u64,
    leaves: &[u8],
    out: &mut [u8],
) -> Result<u64, Refused>
    ensures answer { told_writing result ≡ write_answer description tiles fanout leaves.now
        (length out.old) }
    ensures buffer { out.new ≡ write_buffer description tiles fanout leaves.now
        out.old }
{
    let bytes = leaves::check(description, tiles, fanout, leaves, out.len())?;
    fill(description, tiles as usize, fanout as usize, leaves, out);
    Ok(bytes)
}

// From the leaves up; the fanout and the level number last.
fn fill(description: Description, tiles: usize, fanout: usize, leaves: &[u8], out: &mut [u8])
    requires { Filling description tiles fanout leaves.now out.old }
    ensures { out.new ≡ written_body description tiles fanout leaves.now
        ++ drop (body_bytes fanout tiles (bytes_of_box description)) out.old }
{
    let box_bytes = description.box_bytes();
    let shape = tree::shape_of(tiles, fanout, box_bytes);
    let table = shape.table;
    let levels = shape.levels;
    let start = tree::place_in(&table, 0);
    order::put_u64(out, start - 8, tiles as u64);
    order::copy(out, start, leaves);
    for j in 1..levels {
        put_level(out, description, fanout, &table, j);
    }
    order::put_u32(out, 0, fanout as u32);
    order::put_u32(out, 4, levels as u32);
}

// The level at distance j: its count, and each of its boxes, made of a row of the level below.
fn put_level(out: &mut [u8], description: Description, fanout: usize, table: &[usize; 50], j: usize)
    requires j_nonzero { 0 < j }
    requires levels { Levels out.old (bytes_of_box description) fanout (place_in table.now j) (count_in table.now j)
        (place_in table.now (j - 1)) (count_in table.now (j - 1)) }
    requires no_nan { NoNan description (drop (place_in table.now (j - 1)) out.old) 0 (count_in table.now (j - 1)) }
    ensures { out.new ≡ sets out.old (place_in table.now j - 8)
        (level_of description fanout (drop (place_in table.now (j - 1)) out.old)
        (count_in table.now (j - 1)) (count_in table.now j)) }
{
    let below = j - 1;
    let start = tree::place_in(table, j);
    let parents = tree::count_in(table, j);
    let next = tree::place_in(table, below);
    let count = tree::count_in(table, below);
    order::put_u64(out, start - 8, parents as u64);
    put_rows(out, description, fanout, start, parents, next, count);
}

// The boxes of a level, from `start` on, each made of a row of the level below, which has `count` boxes from `next` on.
fn put_rows(
    out: &mut [u8],
    description: Description,
    fanout: usize,
    start: usize,
    parents: usize,
    next: usize,
    count: usize,
)
    requires levels { Levels out.old (bytes_of_box description) fanout start parents next count }
    requires no_nan { NoNan description (drop next out.old) 0 count }
    ensures { out.new ≡ sets out.old start
        (join (parent_of description fanout (drop next out.old) count) 0 parents) }
{
    let box_bytes = description.box_bytes();
    for k in 0..parents {
        let first = k * fanout;
        let len = tree::row_length(fanout, count, first);
        let at = start + k * box_bytes;
        put_box(out, description, box_bytes, next, first, len, at);
    }
}

// The least box around a row: of the boxes from `start` on, those from box `first` on, `count` of them.
fn put_box(
    out: &mut [u8],
    description: Description,
    box_bytes: usize,
    start: usize,
    first: usize,
    count: usize,
    at: usize,
)
    requires box_bytes_value { box_bytes ≡ bytes_of_box description }
    requires row { Row out.old box_bytes start first count at }
    requires no_nan { NoNan description (drop start out.old) first count }
    ensures { out.new ≡ sets out.old at
        (around description.kinds (sides_of description.dimensions)
        (box_in (drop start out.old) box_bytes) first (count - 1)) }
{
    let kinds = description.kinds;
    let n = description::sides_of(description.dimensions);
    let mut side: usize = 0;
    for i in 0..n {
        let kind = kinds[i].kind;
        put_side(out, kind, box_bytes, start, side, first, count, at + side);
        side += kind.range_bytes();
    }
}

// One side of it, which each box has at its byte `side`.
fn put_side(
    out: &mut [u8],
    kind: Kind,
    box_bytes: usize,
    start: usize,
    side: usize,
    first: usize,
    count: usize,
    at: usize,
)
    requires side_row { SideRow kind (drop start out.old) box_bytes side first count }
    requires kind_bound { at + range_bytes kind ≤ start }
    ensures { out.new ≡ sets out.old at
        (side_of kind (drop start out.old) box_bytes side first (count - 1)) }
{
    let ends = least_side(&out[start..], kind, box_bytes, side, first, count);
    put_ends(out, at, kind, ends);
}

// Of a row the lowest minimum and the highest maximum; between equal ends, the first such box's. Floats, which are no
// NaNs, are compared by their values, and any other ends by their keys.
fn least_side(
    level: &[u8],
    kind: Kind,
    box_bytes: usize,
    side: usize,
    first: usize,
    count: usize,
) -> Patterns
    requires { SideRow kind level.now box_bytes side first count }
    ensures { LeastEnds kind level.now box_bytes side first (count - 1) result }
{
    match kind {
        Kind::Int32 => least_by_key(level, Kind::Int32, box_bytes, side, first, count),
        Kind::Int64 => least_by_key(level, Kind::Int64, box_bytes, side, first, count),
        Kind::Float32 => least_f32(level, box_bytes, side, first, count),
        Kind::Float64 => least_f64(level, box_bytes, side, first, count),
        Kind::Uint64 => least_by_key(level, Kind::Uint64, box_bytes, side, first, count),
    }
}

fn least_by_key(
    level: &[u8],
    kind: Kind,
    box_bytes: usize,
    side: usize,
    first: usize,
    count: usize,
) -> Patterns
    requires { SideRow kind level.now box_bytes side first count }
    ensures { LeastEnds kind level.now box_bytes side first (count - 1) result }
{
    let mut at = first * box_bytes + side;
    let ends = ends_at(level, at, kind);
    let mut low = ends.low;
    let mut high = ends.high;
    for k in first + 1..first + count {
        at += box_bytes;
        let next = ends_at(level, at, kind);
        low = lower(kind, low, next.low);
        high = higher(kind, high, next.high);
    }
    Patterns { low, high }
}

// Of floats, which are no NaNs, once for each format: `from_bits`, `to_bits` and the comparisons below are a format's
// own, and a trait for them would be longer than what it saves.
fn least_f32(level: &[u8], box_bytes: usize, side: usize, first: usize, count: usize) -> Patterns
    requires { SideRow Kind.Float32 level.now box_bytes side first count }
    ensures { LeastEnds Kind.Float32 level.now box_bytes side first (count - 1) result }
{
    let mut at = first * box_bytes + side;
    let ends = ends_at(level, at, Kind::Float32);
    let mut low = f32::from_bits(ints::low_four(ends.low));
    let mut high = f32::from_bits(ints::low_four(ends.high));
    for k in first + 1..first + count {
        at += box_bytes;
        let next = ends_at(level, at, Kind::Float32);
        low = lower_f32(low, f32::from_bits(ints::low_four(next.low)));
        high = higher_f32(high, f32::from_bits(ints::low_four(next.high)));
    }
    Patterns {
        low: f32::to_bits(low) as u64,
        high: f32::to_bits(high) as u64,
    }
}

// The same of 64 bits.
fn least_f64(level: &[u8], box_bytes: usize, side: usize, first: usize, count: usize) -> Patterns
    requires { SideRow Kind.Float64 level.now box_bytes side first count }
    ensures { LeastEnds Kind.Float64 level.now box_bytes side first (count - 1) result }
{
    let mut at = first * box_bytes + side;
    let ends = ends_at(level, at, Kind::Float64);
    let mut low = f64::from_bits(ends.low);
    let mut high = f64::from_bits(ends.high);
    for k in first + 1..first + count {
        at += box_bytes;
        let next = ends_at(level, at, Kind::Float64);
        low = lower_f64(low, f64::from_bits(next.low));
        high = higher_f64(high, f64::from_bits(next.high));
    }
    Patterns {
        low: f64::to_bits(low),
        high: f64::to_bits(high),
    }
}

// The end of one more box is taken where it is strictly lower: of int32 ends in four bytes, as the compiler keeps them.
fn lower(kind: Kind, best: u64, next: u64) -> u64
    requires { (best < 256 ^ end_bytes kind) × (next < 256 ^ end_bytes kind) }
    ensures { result ≡ cond (ltb (key kind next) (key kind best)) next best }
{
    if let Kind::Int32 = kind {
        return lower_i32(ints::low_four(best), ints::low_four(next)) as u64;
    }
    if keys::key_of(kind, next) < keys::key_of(kind, best) {
        return next;
    }
    best
}

// Where it is strictly higher.
fn higher(kind: Kind, best: u64, next: u64) -> u64
    requires { (best < 256 ^ end_bytes kind) × (next < 256 ^ end_bytes kind) }
    ensures { result ≡ cond (ltb (key kind best) (key kind next)) next best }
{
    if let Kind::Int32 = kind {
        return higher_i32(ints::low_four(best), ints::low_four(next)) as u64;
    }
    if keys::key_of(kind, best) < keys::key_of(kind, next) {
        return next;
    }
    best
}

fn lower_i32(best: u32, next: u32) -> u32
    ensures { result ≡ cond (ltb (signed_key w32 next) (signed_key w32 best)) next best }
{
    if i32::key(next) < i32::key(best) {
        return next;
    }
    best
}

fn higher_i32(best: u32, next: u32) -> u32
    ensures { result ≡ cond (ltb (signed_key w32 best) (signed_key w32 next)) next best }
{
    if i32::key(best) < i32::key(next) {
        return next;
    }
    best
}

fn lower_f32(best: f32, next: f32) -> f32
    ensures { result ≡ cond (lt next best) next best }
{
    if next < best {
        return next;
    }
    best
}

// By the other comparison: with the same one in both, the compiler makes a vector of a range's ends, which is slower.
fn higher_f32(best: f32, next: f32) -> f32
    ensures { result ≡ cond (le next best) best next }
{
    if next <= best {
        return best;
    }
    next
}

fn lower_f64(best: f64, next: f64) -> f64
    ensures { result ≡ cond (lt next best) next best }
{
    if next < best {
        return next;
    }
    best
}

fn higher_f64(best: f64, next: f64) -> f64
    ensures { result ≡ cond (le next best) best next }
{
    if next <= best {
        return best;
    }
    next
}

// The ends of a range that is wholly there. They are read from a part of known length, so that the test of that length
// is none in the compiled code.
fn ends_at(bytes: &[u8], at: usize, kind: Kind) -> Patterns
    requires { at + range_bytes kind ≤ length bytes.now }
    ensures low_value { result.low ≡ (ends_at kind bytes.now at).low }
    ensures high_value { result.high ≡ (ends_at kind bytes.now at).high }
{
    match kind {
        Kind::Int32 | Kind::Float32 => ranges::patterns_at(&bytes[at..at + 8], 0, kind),
        Kind::Int64 | Kind::Float64 | Kind::Uint64 => ranges::patterns_at(
            &bytes[at..at + 16],
            0,
            kind,
        ),
    }
}

// The bytes of both ends go to a place, each end in its kind's width.
fn put_ends(out: &mut [u8], at: usize, kind: Kind, ends: Patterns)
    requires low_bound { (ends.low < 256 ^ end_bytes kind) × (ends.high < 256 ^ end_bytes kind) }
    requires kind_in_bounds { at + range_bytes kind ≤ length out.old }
    ensures { out.new ≡ sets out.old at
        (bytes_of (end_bytes kind) ends.low ++ bytes_of (end_bytes kind) ends.high) }
{
    match kind {
        Kind::Int32 | Kind::Float32 => {
            let part = &mut out[at..at + 8];
            order::put_u32(part, 0, ints::low_four(ends.low));
            order::put_u32(part, 4, ints::low_four(ends.high));
        }
        Kind::Int64 | Kind::Float64 | Kind::Uint64 => {
            let part = &mut out[at..at + 16];
            order::put_u64(part, 0, ends.low);
            order::put_u64(part, 8, ends.high);
        }
    }
}
