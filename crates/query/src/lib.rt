// The window query on plain bytes: which tiles does a window touch? And its test of one box.
#![tactic(auto)]

ghost use Rattle.std.specs.Prelude.{◌≡◌, false, ◌||◌, ◌+◌, ◌*◌, ◌%◌, ◌^◌, ◌≤◌, ◌<◌, ltb, length, take, drop, ◌∷◌};
ghost use Rattle.std.specs.Float.{binary32, binary64};
ghost use Rattle.std.specs.Float.Ieee.{nan_bits};
ghost use Rattle.answers.specs.Refusals.{refusal};
ghost use Rattle.answers.specs.Told.{told};
ghost use Rattle.order.specs.Little.{first_of_two, second_of_two};
ghost use Rattle.description.specs.Kinds.{range_bytes, is_nan};
ghost use Rattle.description.specs.Description.{side_start};
ghost use Rattle.ranges.specs.Ranges.{kind_of, ends_at, fitted, range_of, range_at, has_nan, meets};
ghost use Rattle.boxes.specs.Boxes.{range_in};
ghost use Rattle.windows.specs.Code.Carried.{carried_side, Fitting};
ghost use Rattle.rtree.specs.Opening.{Accepted};
ghost use Rattle.query.specs.Query.{asked_refusal, refused_answer, query_answer, query_buffer, flat_count_of};
ghost use Rattle.query.specs.Query.{Lists, Bounded};
ghost use Rattle.query.specs.BoxTest.{box_test_refusal, box_test_answer, ReadUp};
ghost use Rattle.query.specs.Code.Walking.{asked_of, planned, shaped_ground, state, meets_asked, read_asked, Carried};
ghost use Rattle.query.specs.Code.Walking.{visited, children_walked, root_walked, Box, ChildRow, RootRow};

use answers::{Reason, Refused};
use boxes::Window;
use description::{Description, Dimension, Kind};
use floats::Float;
use ranges::Range;
use rtree::Shaped;

#[derive(Clone, Copy)]
pub struct Answer {
    pub number: u64,
    pub place: u64,
    pub found: u64,
    pub looked: u64,
}

// What a box test says: whether the box meets the window, and how many dimensions were read for that.
#[derive(Clone, Copy)]
pub struct Tested {
    pub meets: bool,
    pub read: usize,
}

#[derive(Clone, Copy)]
pub struct BoxTest {
    pub number: u64,
    pub place: u64,
    pub tested: Tested,
}

// What a walk hands on: how many tiles it found, and how many boxes it looked at.
#[derive(Clone, Copy)]
struct Walk {
    found: usize,
    count: usize,
}

#[derive(Clone, Copy)]
struct Looked {
    tested: Tested,
    count: usize,
}

// A window that passed its check, as the tests of boxes go by it: its dimensions, their kinds and the patterns of its
// ends.
#[derive(Clone, Copy)]
struct Asked {
    dimensions: usize,
    kinds: [Dimension; 4],
    ends: [u64; 8],
}

// What a walk goes by, lent from row to row by one reference: the window, the bytes of a box, the fanout and the table of
// the levels.
#[derive(Clone, Copy)]
struct Plan {
    asked: Asked,
    box_bytes: usize,
    fanout: usize,
    table: [usize; 50],
}

impl Asked {
    fn of(description: Description, window: Window) -> Asked
        ensures is { result ≡ asked_of description window }
        ensures fitting { Fitting (λ i. kind_of (range_in window.sides i)) result.ends result.dimensions }
    {
        let kinds = description.kinds;
        let ends = windows::window_ends(window.sides, description.dimensions);
        Asked {
            dimensions: description::sides_of(description.dimensions),
            kinds,
            ends,
        }
    }
}

// The buffer's first places hold the first found tiles, as many as fit.
pub fn query(
    description: Description,
    tiles: u64,
    body: &[u8],
    window: Window,
    out: &mut [u32],
) -> Answer
    ensures answer { result ≡ query_answer description tiles body.now window }
    ensures buffer { out.new ≡ query_buffer description tiles body.now window out.old }
    ensures listing { Accepted description tiles body.now → result.number ≡ 0 → Lists description tiles
        body.now window result out.old out.new }
    ensures flat_count { Accepted description tiles body.now → result.number ≡ 0 → result.looked ≡
        flat_count_of description tiles body.now window }
    ensures bound { result.number ≡ 0 → Bounded tiles body.now result }
{
    if let Err(e) = check_asked(description, tiles, window) {
        return refused(e.reason.number(), e.place);
    }
    let shaped = rtree::check_shape(description, tiles, body);
    if shaped.number != 0 {
        return refused(shaped.number, shaped.place);
    }
    let asked = Asked::of(description, window);
    let walk = walk_tree(description, shaped, body, asked, out);
    Answer {
        number: 0,
        place: 0,
        found: walk.found as u64,
        looked: walk.count as u64,
    }
}

// The test of one box by itself, with its checks.
pub fn box_test(description: Description, bytes: &[u8], window: Window) -> BoxTest
    ensures answer { result ≡ box_test_answer description bytes.now window }
    ensures read { result.number ≡ 0 → ReadUp description bytes.now window result.tested }
{
    match check_box_test(description, bytes, window) {
        Err(e) => BoxTest {
            number: e.reason.number(),
            place: e.place,
            tested: Tested {
                meets: false,
                read: 0,
            },
        },
        Ok(()) => {
            let asked = Asked::of(description, window);
            BoxTest {
                number: 0,
                place: 0,
                tested: test_box(bytes, &asked),
            }
        }
    }
}

// 1, 28, the window, the bytes.
fn check_box_test(description: Description, bytes: &[u8], window: Window) -> Result<(), Refused>
    ensures { told result ≡ box_test_refusal description bytes.now window }
{
    description.check()?;
    windows::check_window(description, window)?;
    let len = bytes.len();
    Reason::Bytes.when(len != description.box_bytes(), len as u64)
}

// By number and place, since a shape's refusal has these and no error.
fn refused(number: u64, place: u64) -> Answer
    ensures { result ≡ refused_answer (refusal number place) }
{
    Answer {
        number,
        place,
        found: 0,
        looked: 0,
    }
}

// 1, 28, 10, the window.
fn check_asked(description: Description, tiles: u64, window: Window) -> Result<(), Refused>
    ensures { told result ≡ asked_refusal description tiles window }
{
    description.check()?;
    Reason::Tiles.when(Description::tiles_outside(tiles), 0)?;
    windows::check_window(description, window)
}

// The walk of a tree that passed the check of its shape, by a window that passed its own.
fn walk_tree(
    description: Description,
    shaped: Shaped,
    body: &[u8],
    asked: Asked,
    out: &mut [u32],
) -> Walk
    requires { RootRow (shaped_ground description shaped body.now asked) shaped.shape.levels out.old }
    ensures { state result out.new ≡ root_walked (shaped_ground description shaped body.now asked) shaped.shape.levels out.old }
{
    let shape = shaped.shape;
    let table = shape.table;
    let plan = Plan {
        asked,
        box_bytes: description.box_bytes(),
        fanout: shaped.fanout,
        table,
    };
    let none = Walk { found: 0, count: 0 };
    // The root's row is the row of a box above it.
    walk_row(body, &plan, shape.levels - 1, 0, out, none)
}

// Looking at one box and walking a row of boxes call each other. A walk starts with the row of the root.

#[cycle(visit_walk_row)]
fn visit(
    body: &[u8],
    plan: &Plan,
    distance: usize,
    k: usize,
    place: usize,
    out: &mut [u32],
    walk: Walk,
) -> Walk
    requires { Box (planned body.now plan.now) distance k place (state walk out.old) }
    ensures { state result out.new ≡ visited (planned body.now plan.now) distance k (state walk out.old) }
{
    let seen = look_at(body, place, plan, walk.count);
    let looked = Walk {
        found: walk.found,
        count: seen.count,
    };
    if !seen.tested.meets {
        return looked;
    }
    if distance > 0 {
        return walk_row(body, plan, distance - 1, k, out, looked);
    }
    answers::keep(out, walk.found, k as u32);
    Walk {
        found: walk.found + 1,
        count: seen.count,
    }
}

// The children of box `parent` of the level above the one at this distance.
#[cycle(visit_walk_row)]
fn walk_row(
    body: &[u8],
    plan: &Plan,
    distance: usize,
    parent: usize,
    out: &mut [u32],
    walk: Walk,
) -> Walk
    requires { ChildRow (planned body.now plan.now) distance parent (state walk out.old) }
    ensures { state result out.new ≡ children_walked (planned body.now plan.now) distance parent (state walk out.old) }
{
    let fanout = plan.fanout;
    let box_bytes = plan.box_bytes;
    let first = parent * fanout;
    let last = first + tree::row_length(fanout, plan.table[2 * distance + 1], first);
    let mut place = plan.table[2 * distance] + first * box_bytes;
    let mut sofar = walk;
    for k in first..last {
        sofar = visit(body, plan, distance, k, place, out, sofar);
        place += box_bytes;
    }
    sofar
}

// Reads and tests a box of the body, and gives the count back one higher.
fn look_at(body: &[u8], place: usize, plan: &Plan, count: usize) -> Looked
    requires box_bytes_in_bounds { (place + plan.now.box_bytes ≤ length body.now) × (count + 1 < 2 ^ 64) }
    requires box_bytes_value { (plan.now.box_bytes ≡ side_start plan.now.asked.kinds plan.now.asked.dimensions) × Carried plan.now.asked }
    ensures look { (result.tested.meets ≡ meets_asked plan.now.asked (take plan.now.box_bytes
        (drop place body.now))) × (result.count ≡ count + 1) }
    ensures read { result.tested.read ≡ read_asked plan.now.asked (take plan.now.box_bytes
        (drop place body.now)) }
{
    let end = place + plan.box_bytes;
    let tested = test_box(&body[place..end], &plan.asked);
    Looked {
        tested,
        count: count + 1,
    }
}

// Whether a box meets the window in each dimension. The number of dimensions read starts at 0 and goes through each
// dimension's test, of which the first that misses is the last.
fn test_box(bytes: &[u8], asked: &Asked) -> Tested
    requires { (side_start asked.now.kinds asked.now.dimensions ≤ length bytes.now) × Carried asked.now }
    ensures { (result.meets ≡ meets_asked asked.now bytes.now) × (result.read ≡ read_asked asked.now bytes.now) }
{
    let mut tested = Tested {
        meets: true,
        read: 0, // counted as looks are
    };
    let mut at: usize = 0;
    for i in 0..4 {
        if asked.dimensions <= i {
            return tested;
        }
        let kind = asked.kinds[i].kind;
        tested = test_side(bytes, at, kind, &asked.ends, i, tested.read);
        if !tested.meets {
            return tested;
        }
        at += kind.range_bytes();
    }
    tested
}

// Reads and tests dimension i of a box, and gives the number of dimensions read back one higher. A side with NaN is a
// miss; any other, read in the window's kind, and the window's are compared by a match.
fn test_side(bytes: &[u8], at: usize, kind: Kind, ends: &[u64; 8], i: usize, read: usize) -> Tested
    requires kind_in_bounds { (at + range_bytes kind ≤ length bytes.now) × (i < 4) × (read + 1 < 2 ^ 64) }
    requires i_value { has_nan (carried_side kind ends.now i) ≡ false }
    ensures { (result.meets ≡ meets (ends_at kind bytes.now at) (carried_side kind ends.now i))
        × (result.read ≡ read + 1) }
{
    let counted = read + 1;
    if has_nan(bytes, at, kind) {
        return Tested {
            meets: false,
            read: counted,
        };
    }
    let range = range_in(bytes, at, kind);
    let asked = window_range(kind, ends[2 * i], ends[2 * i + 1]);
    Tested {
        meets: comparisons::meets(range, asked),
        read: counted,
    }
}

// Whether the range of a kind at a place where it is wholly there has a NaN, told from the patterns of its ends.
fn has_nan(bytes: &[u8], at: usize, kind: Kind) -> bool
    requires { at + range_bytes kind ≤ length bytes.now }
    ensures { result ≡ has_nan (ends_at kind bytes.now at) }
{
    match kind {
        Kind::Float32 => have_nan::<f32>(&bytes[at..at + 8]),
        Kind::Float64 => f64s_have_nan(&bytes[at..at + 16]),
        Kind::Int32 | Kind::Int64 | Kind::Uint64 => false,
    }
}

// Whether one of two floats has a NaN's pattern.
fn have_nan<F: Float>(bytes: &[u8]) -> bool
    ensures { result ≡ (nan_bits F.format (first_of_two bytes.now 0 F.Pattern.SIZE)
        || nan_bits F.format (second_of_two bytes.now 0 F.Pattern.SIZE)) }
{
    let ends = order::pair_at::<F::Pattern>(bytes, 0);
    F::nan_pattern(ends.low) || F::nan_pattern(ends.high)
}

// The same of float64. Their upper bytes tell it of nearly every number, so that all eight are read only to become a
// value.
fn f64s_have_nan(bytes: &[u8]) -> bool
    ensures { result ≡ (nan_bits binary64 (first_of_two bytes.now 0 8)
        || nan_bits binary64 (second_of_two bytes.now 0 8)) }
{
    if is_small(order::u32_at(bytes, 4)) && is_small(order::u32_at(bytes, 12)) {
        return false;
    }
    have_nan::<f64>(bytes)
}

// Whether the upper four bytes of a float64 are below those of an infinity, whatever the sign.
fn is_small(upper: u32) -> bool
    ensures { result ≡ ltb (2 * (upper % 0x8000_0000)) 0xffe0_0000 }
{
    2 * (upper % 0x8000_0000) < 0xffe0_0000
}

// That range, which has no NaN, so that its floats become values with no test. It is read from a part of known length,
// so that the test of that length is none in the compiled code.
fn range_in(bytes: &[u8], at: usize, kind: Kind) -> Range
    requires kind_in_bounds { at + range_bytes kind ≤ length bytes.now }
    requires at_value { has_nan (ends_at kind bytes.now at) ≡ false }
    ensures { result ≡ range_at kind bytes.now at }
{
    match kind {
        Kind::Int32 => Range::read(&bytes[at..at + 8], 0, Kind::Int32),
        Kind::Int64 => Range::read(&bytes[at..at + 16], 0, Kind::Int64),
        Kind::Float32 => {
            let ends = order::pair_at::<u32>(&bytes[at..at + 8], 0);
            Range::F32(f32::from_bits(ends.low), f32::from_bits(ends.high))
        }
        Kind::Float64 => {
            let ends = order::pair_at::<u64>(&bytes[at..at + 16], 0);
            Range::F64(f64::from_bits(ends.low), f64::from_bits(ends.high))
        }
        Kind::Uint64 => Range::read(&bytes[at..at + 16], 0, Kind::Uint64),
    }
}

// The range of a window whose ends have these patterns. They passed the window's check, so no float of them is a NaN,
// and none is tested for.
fn window_range(kind: Kind, low: u64, high: u64) -> Range
    requires { (is_nan kind (fitted kind low) ≡ false) × (is_nan kind (fitted kind high) ≡ false) }
    ensures { result ≡ range_of kind (fitted kind low) (fitted kind high) }
{
    match kind {
        Kind::Float32 => Range::F32(
            f32::from_bits(ints::low_four(low)),
            f32::from_bits(ints::low_four(high)),
        ),
        Kind::Float64 => Range::F64(f64::from_bits(low), f64::from_bits(high)),
        _ => Range::of(kind, low, high),
    }
}
