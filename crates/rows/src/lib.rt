// A row of boxes in their bytes, each checked alone and against one box around them all.
#![tactic(auto)]

ghost use Rattle.std.specs.Prelude.{◌≡◌, ℕ, true, false, ◌&&◌, ◌+◌, ◌^◌, ◌≤◌, ◌<◌, length};
ghost use Rattle.std.specs.Float.Ieee.{nan_bits};
ghost use Rattle.answers.specs.Refusals.{refusal, none};
ghost use Rattle.answers.specs.declared.Refusal.{Refusal};
ghost use Rattle.answers.specs.Checks.{otherwise};
ghost use Rattle.answers.specs.Told.{told, number_of};
ghost use Rattle.order.specs.Little.{first_of_two, second_of_two};
ghost use Rattle.description.specs.Description.{sides_of, side_start};
ghost use Rattle.description.specs.Kinds.{range_bytes, ordered, at_most};
ghost use Rattle.ranges.specs.Ranges.{kind_of, ends_at, ends_of, inside};
ghost use Rattle.verdicts.specs.Verdicts.{is_finite, verdict};
ghost use Rattle.boxes.specs.Boxes.{all, ranges_refusal};
ghost use Rattle.rows.specs.Code.Row.{is_sound, sound_within, sound_inside, row_refusal, SoundSide, SoundBox, Fault, NextApart};

use answers::{Reason, Refusal, Refused};
use description::{Dimension, Kind};
use floats::Float;
use ints::Int;
use order::Pair;
use ranges::Range;
use verdicts::Verdict;

// What a box outside is refused with: a number, where 0 passes over it, or a reason. What is told of a row is of its
// own type for each.
pub trait Outside: Copy {
    type Told: Copy;

    ghost number: { Self → ℕ };

    ghost tells: { Self.Told → Refusal };

    fn passed() -> Self::Told
        ensures { tells result ≡ none };

    // The fault of a box at a place that is not sound and inside: what its ranges told, or else that it is outside.
    fn fault(self, ranges: Result<(), Refused>, place: u64) -> Option<Self::Told>
        ensures { Fault tells result (otherwise (told ranges) (refusal (number self) place)) };
}

impl Outside for u64 {
    type Told = Refusal;

    ghost number = { λ n. n };

    ghost tells = { λ r. r };

    fn passed() -> Refusal {
        Refusal::none()
    }

    fn fault(self, ranges: Result<(), Refused>, place: u64) -> Option<Refusal> {
        let told = Refusal::from(ranges).or(Refusal::new(self, place));
        if told.number == 0 { None } else { Some(told) }
    }
}

impl Outside for Reason {
    type Told = Result<(), Refused>;

    ghost number = { number_of };

    ghost tells = { told };

    #[tactic(auto, unfolding(answers::specs::Told::told))]
    fn passed() -> Result<(), Refused> {
        Ok(())
    }

    fn fault(self, ranges: Result<(), Refused>, place: u64) -> Option<Result<(), Refused>> {
        match ranges {
            Ok(()) => Some(Err(self.at(place))),
            Err(e) => Some(Err(e)),
        }
    }
}

// The boxes of a row, one after the other: the ranges of each in turn, and then whether it lies inside another box,
// with a number or a reason for that. Only a box that fails in some dimension is asked for its fault.
pub fn check_row<N: Outside>(
    row: &[u8],
    kinds: [Dimension; 4],
    dimensions: u64,
    outer: &[u8],
    number: N,
) -> N::Told
    ensures { N.tells result ≡ row_refusal kinds (sides_of dimensions) row.now outer.now (N.number number) }
{
    let mut from: usize = 0;
    while let Some(b) = next_apart(row, kinds, dimensions, outer, from) {
        if let Some(told) = box_fault(&row[b.start..b.end], kinds, dimensions, number, b.start) {
            return told;
        }
        from = b.end;
    }
    N::passed()
}

// Where a box of a row stands.
#[derive(Clone, Copy)]
struct Standing {
    start: usize,
    end: usize,
}

// The next box of a row, from a place on, that is not sound and inside. The loop stands here and not above, so that it
// is compiled once, with all that it calls.
fn next_apart(
    row: &[u8],
    kinds: [Dimension; 4],
    dimensions: u64,
    outer: &[u8],
    from: usize,
) -> Option<Standing>
    requires { from ≤ length row.now }
    ensures { NextApart kinds (sides_of dimensions) row.now outer.now from result }
{
    let n = description::sides_of(dimensions);
    let around = look_around(outer, kinds, dimensions);
    let sound = around.sound;
    let box_bytes = around.box_bytes;
    if box_bytes == 0 {
        return None;
    }
    let len = row.len();
    let mut at: usize = from;
    while box_bytes <= len - at {
        let end = at + box_bytes;
        if !box_within(&row[at..end], outer, kinds, n, sound) {
            return Some(Standing { start: at, end });
        }
        at = end;
    }
    None
}

// The box around a row: how many bytes a box has, and whether this one is there whole, with no fault.
#[derive(Clone, Copy)]
struct Around {
    box_bytes: usize,
    sound: bool,
}

fn look_around(outer: &[u8], kinds: [Dimension; 4], dimensions: u64) -> Around
    ensures { (result.box_bytes ≡ side_start kinds (sides_of dimensions)) × (result.sound ≡ true → SoundBox kinds
        (sides_of dimensions) outer.now) }
{
    let n = description::sides_of(dimensions);
    let mut sound = true;
    let mut at: usize = 0;
    for i in 0..n {
        let kind = kinds[i].kind;
        if !is_sound(Range::read(outer, at, kind)) {
            sound = false;
        }
        at += kind.range_bytes();
    }
    if outer.len() < at {
        sound = false;
    }
    Around {
        box_bytes: at,
        sound: sound,
    }
}

// Whether a box has no fault and lies inside another, which may be known to be sound.
fn box_within(bytes: &[u8], outer: &[u8], kinds: [Dimension; 4], n: usize, sound: bool) -> bool
    requires { (n ≤ 4) × (side_start kinds n ≤ length bytes.now) × (sound ≡ true → SoundBox kinds n outer.now) }
    ensures { result ≡ all (sound_inside kinds bytes.now outer.now) 0 n }
{
    let mut at: usize = 0;
    for i in 0..4 {
        if n <= i {
            return true;
        }
        let kind = kinds[i].kind;
        if !side_within(bytes, outer, at, kind, sound) {
            return false;
        }
        at += kind.range_bytes();
    }
    true
}

// The same of one dimension.
fn side_within(bytes: &[u8], outer: &[u8], at: usize, kind: Kind, sound: bool) -> bool
    requires { (at + range_bytes kind ≤ length bytes.now) × (sound ≡ true → SoundSide kind outer.now at) }
    ensures { result ≡ sound_within kind bytes.now outer.now at }
{
    if sound {
        return within_sound(bytes, outer, at, kind);
    }
    let range = Range::read(bytes, at, kind);
    if !is_sound(range) {
        return false;
    }
    comparisons::inside(range, Range::read(outer, at, kind))
}

// The same where the other range is sound. It is read with no test for a NaN, and each range from a part of known
// length, so that the test of that length is none in the compiled code.
fn within_sound(bytes: &[u8], outer: &[u8], at: usize, kind: Kind) -> bool
    requires { (at + range_bytes kind ≤ length bytes.now) × SoundSide kind outer.now at }
    ensures { result ≡ sound_within kind bytes.now outer.now at }
{
    match kind {
        Kind::Float32 => {
            let range = Range::read(&bytes[at..at + 8], 0, Kind::Float32);
            let ends = floats_in(&outer[at..at + 8]);
            between(range, Range::F32(ends.low, ends.high))
        }
        Kind::Float64 => {
            let range = Range::read(&bytes[at..at + 16], 0, Kind::Float64);
            let ends = floats_in(&outer[at..at + 16]);
            between(range, Range::F64(ends.low, ends.high))
        }
        _ => {
            let end = at + kind.range_bytes();
            let range = Range::read(&bytes[at..end], 0, kind);
            between(range, Range::read(&outer[at..end], 0, kind))
        }
    }
}

// Whether a range is sound and lies inside one that is finite: nothing infinite lies between finite ends, so its own
// are not asked for that.
fn between(range: Range, outer: Range) -> bool
    requires { is_finite (ends_of outer) ≡ true }
    ensures { result ≡ (is_sound (verdict (ends_of range) range) && inside (ends_of range) (ends_of outer)) }
{
    in_order(range) && comparisons::inside(range, outer)
}

// The minimum is at most the maximum, which no NaN is.
fn in_order(range: Range) -> bool
    ensures { result ≡ at_most (ordered (kind_of range)) (ends_of range).low (ends_of range).high }
{
    match range {
        Range::I32(low, high) => low.at_most(high),
        Range::I64(low, high) => low.at_most(high),
        Range::F32(low, high) => low.at_most(high),
        Range::F64(low, high) => low.at_most(high),
        Range::U64(low, high) => low.at_most(high),
    }
}

// A float of a pattern that is no NaN's, with no test for that. `from_bits` is undefined at a NaN's, and no public
// function asks anything of its caller, so this stands here and not in `Float`.
trait OfNumber: Float {
    fn of_number(p: Self::Pattern) -> Self
        requires { nan_bits Self.format (Self.Pattern.number p) ≡ false }
        ensures { result ≡ Self.of_pattern (Self.Pattern.number p) };
}

impl OfNumber for f32 {
    fn of_number(p: u32) -> f32 {
        f32::from_bits(p)
    }
}

impl OfNumber for f64 {
    fn of_number(p: u64) -> f64 {
        f64::from_bits(p)
    }
}

// Two floats, one after the other, neither of which is a NaN.
fn floats_in<F: OfNumber>(part: &[u8]) -> Pair<F>
    requires { (nan_bits F.format (first_of_two part.now 0 F.Pattern.SIZE) ≡ false)
        × (nan_bits F.format (second_of_two part.now 0 F.Pattern.SIZE) ≡ false) }
    ensures { (result.low ≡ F.of_pattern (first_of_two part.now 0 F.Pattern.SIZE))
        × (result.high ≡ F.of_pattern (second_of_two part.now 0 F.Pattern.SIZE)) }
{
    let ends = order::pair_at::<F::Pattern>(part, 0);
    Pair {
        low: F::of_number(ends.low),
        high: F::of_number(ends.high),
    }
}

// Whether no refusal comes of a stored range.
fn is_sound(range: Range) -> bool
    ensures { result ≡ is_sound (verdict (ends_of range) range) }
{
    matches!(Verdict::of(range), Verdict::Sound(_))
}

// What is wrong with a box that starts at a place: one of its ranges, or else where it lies. It is apart from the loop
// above, which is faster without it.
fn box_fault<N: Outside>(
    bytes: &[u8],
    kinds: [Dimension; 4],
    dimensions: u64,
    number: N,
    start: usize,
) -> Option<N::Told>
    requires { start + side_start kinds (sides_of dimensions) < 2 ^ 64 }
    ensures { Fault N.tells result (otherwise (ranges_refusal kinds (sides_of dimensions) bytes.now start)
        (refusal (N.number number) start)) }
{
    let here = start as u64;
    let ranges = boxes::check_ranges(bytes, kinds, dimensions).map_err(|e| e.moved(here));
    number.fault(ranges, here)
}
