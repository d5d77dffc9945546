// The leaves that a body is to be written of: whether they, the sizes and the room are right, and how long the body is.
#![tactic(auto)]

ghost use Rattle.std.specs.Prelude.{◌≡◌, true, ◌+◌, ◌*◌, ◌≤◌, length};
ghost use Rattle.answers.specs.Refusals.{none};
ghost use Rattle.answers.specs.Told.{told};
ghost use Rattle.description.specs.Kinds.{range_bytes};
ghost use Rattle.description.specs.Description.{bytes_of_box};
ghost use Rattle.ranges.specs.Ranges.{ends_at};
ghost use Rattle.written.specs.Writing.{told_writing, sizes_refusal, length_answer, write_answer};
ghost use Rattle.leaves.specs.Code.Sound.{leaves_refusal, SoundEnds, SoundFloats, SoundSide};

use answers::{Reason, Refused};
use description::{Description, Kind};
use floats::Float;

// How many bytes writing writes, with so much room: all the checks, in their order.
pub fn check(
    description: Description,
    tiles: u64,
    fanout: u64,
    leaves: &[u8],
    room: usize,
) -> Result<u64, Refused>
    ensures { told_writing result ≡ write_answer description tiles fanout leaves.now room }
{
    check_sizes(description, tiles, fanout)?;
    let n = tiles as usize;
    let box_bytes = description.box_bytes();
    let len = leaves.len();
    Reason::Bytes.when(len != n * box_bytes, len as u64)?;
    check_leaves(description, n, leaves)?;
    let shape = tree::shape_of(n, fanout as usize, box_bytes);
    Reason::Room.when(room < shape.bytes, 0)?;
    Ok(shape.bytes as u64)
}

// How many bytes the body has.
pub fn body_length(description: Description, tiles: u64, fanout: u64) -> Result<u64, Refused>
    ensures { told_writing result ≡ length_answer description tiles fanout }
{
    check_sizes(description, tiles, fanout)?;
    let shape = tree::shape_of(tiles as usize, fanout as usize, description.box_bytes());
    Ok(shape.bytes as u64)
}

// 1, 28, 10, 13.
fn check_sizes(description: Description, tiles: u64, fanout: u64) -> Result<(), Refused>
    ensures { told result ≡ sizes_refusal description tiles fanout }
{
    description.check()?;
    Reason::Tiles.when(Description::tiles_outside(tiles), 0)?;
    Reason::Fanout.when(Description::fanout_outside(fanout), 0)
}

// The ranges of each leaf: the first fault, placed in the lent leaves. Leaf by leaf only where some range has one.
fn check_leaves(description: Description, tiles: usize, leaves: &[u8]) -> Result<(), Refused>
    requires { length leaves.now ≡ tiles * bytes_of_box description }
    ensures { told result ≡ leaves_refusal description tiles leaves.now }
{
    if all_sound(description, tiles, leaves) {
        return Ok(());
    }
    first_fault(description, tiles, leaves)
}

// Whether no range has a fault, dimension by dimension.
fn all_sound(description: Description, tiles: usize, leaves: &[u8]) -> bool
    requires { length leaves.now ≡ tiles * bytes_of_box description }
    ensures { result ≡ true → leaves_refusal description tiles leaves.now ≡ none }
{
    let kinds = description.kinds;
    let box_bytes = description.box_bytes();
    let n = description::sides_of(description.dimensions);
    let mut side: usize = 0;
    for i in 0..n {
        let kind = kinds[i].kind;
        if !side_sound(kind, box_bytes, side, tiles, leaves) {
            return false;
        }
        side += kind.range_bytes();
    }
    true
}

// The same of one dimension. With its kind known where the loop stands, the loop asks for it no more.
fn side_sound(kind: Kind, box_bytes: usize, side: usize, tiles: usize, leaves: &[u8]) -> bool
    requires kind_bound { side + range_bytes kind ≤ box_bytes }
    requires leaves_len { length leaves.now ≡ tiles * box_bytes }
    ensures { result ≡ true → SoundSide kind leaves.now box_bytes side tiles }
{
    match kind {
        Kind::Int32 => sound_in(Kind::Int32, box_bytes, side, tiles, leaves),
        Kind::Int64 => sound_in(Kind::Int64, box_bytes, side, tiles, leaves),
        Kind::Float32 => sound_in(Kind::Float32, box_bytes, side, tiles, leaves),
        Kind::Float64 => sound_in(Kind::Float64, box_bytes, side, tiles, leaves),
        Kind::Uint64 => sound_in(Kind::Uint64, box_bytes, side, tiles, leaves),
    }
}

fn sound_in(kind: Kind, box_bytes: usize, side: usize, tiles: usize, leaves: &[u8]) -> bool
    requires kind_bound { side + range_bytes kind ≤ box_bytes }
    requires leaves_len { length leaves.now ≡ tiles * box_bytes }
    ensures { result ≡ true → SoundSide kind leaves.now box_bytes side tiles }
{
    for k in 0..tiles {
        if !sound_at(leaves, k * box_bytes + side, kind) {
            return false;
        }
    }
    true
}

// The same of one range. It is read from a part of known length, so that the test of that length is none in compiled
// code.
fn sound_at(bytes: &[u8], at: usize, kind: Kind) -> bool
    requires { at + range_bytes kind ≤ length bytes.now }
    ensures { result ≡ true → SoundEnds kind (ends_at kind bytes.now at).low
        (ends_at kind bytes.now at).high }
{
    let ends = ranges::patterns_at(&bytes[at..at + kind.range_bytes()], 0, kind);
    match kind {
        Kind::Float32 => sound_floats::<f32>(ends.low as u32, ends.high as u32),
        Kind::Float64 => sound_floats::<f64>(ends.low, ends.high),
        _ => keys::key_of(kind, ends.low) <= keys::key_of(kind, ends.high),
    }
}

// Whether the patterns of both ends are finite, and their values in order. A finite pattern is no NaN's, so that `of`
// tests for none in the compiled code.
fn sound_floats<F: Float>(low: F::Pattern, high: F::Pattern) -> bool
    ensures { result ≡ true → SoundFloats F.format (λ p. F.pattern (F.of_pattern p)) (F.Pattern.number low)
        (F.Pattern.number high) }
{
    if !F::finite_pattern(low) {
        return false;
    }
    if !F::finite_pattern(high) {
        return false;
    }
    F::of(low).at_most(F::of(high))
}

// The first fault of the leaves.
fn first_fault(description: Description, tiles: usize, leaves: &[u8]) -> Result<(), Refused>
    requires { length leaves.now ≡ tiles * bytes_of_box description }
    ensures { told result ≡ leaves_refusal description tiles leaves.now }
{
    let kinds = description.kinds;
    let box_bytes = description.box_bytes();
    let mut at: usize = 0;
    for k in 0..tiles {
        let end = at + box_bytes;
        boxes::check_ranges(&leaves[at..end], kinds, description.dimensions).map_err(|e| e.moved(
            at as u64,
        ))?;
        at = end;
    }
    Ok(())
}
