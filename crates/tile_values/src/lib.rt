// The mins and maxes of a field of a fixed kind, alone and as a pair, and a tile's value.
#![tactic(auto)]

ghost use Rattle.std.specs.Prelude.{◌≡◌, true, false, ℕ, ◌+◌, ◌*◌, ◌≤◌, ◌<◌, leb, length};
ghost use Rattle.answers.specs.Told.{told};
ghost use Rattle.order.specs.Little.{little};
ghost use Rattle.description.specs.Kinds.{end_bytes, is_nan, key, ordered, at_most};
ghost use Rattle.tile_metadata.specs.Bodies.{told_values, value_at};
ghost use Rattle.tile_values.specs.Values.{pattern, fixed_refusal, nan_breaks, values_refusal, order_breaks};
ghost use Rattle.tile_values.specs.Values.{maxes_refusal, values_answer, pair_answer, pattern_of, value_answer};
ghost use Rattle.tile_values.specs.Values.{bounds_answer};

use answers::{Reason, Refused};
use description::Kind;
use floats::Float;
use ints::Int;
use tile_metadata::TwoBodies;

// The patterns of a tile's min and max.
#[derive(Clone, Copy)]
pub struct Bounds {
    pub min: u64,
    pub max: u64,
}

// The mins or the maxes of a field.
pub fn open_values(kind: Kind, tiles: u64, body: &[u8]) -> Result<u64, Refused>
    ensures { told_values result ≡ values_answer kind tiles body.now }
{
    check_values(kind, tiles, body)?;
    Ok(tiles)
}

// The mins and the maxes together. Where every min is at most its max there is no NaN either, so that one pass over
// both accepts them; the checks in their order are for those that it doesn't.
pub fn open_pair(kind: Kind, tiles: u64, mins: &[u8], maxes: &[u8]) -> TwoBodies
    ensures { result ≡ pair_answer kind tiles mins.now maxes.now }
{
    if let Ok(()) = check_fixed(kind, tiles, mins)
        && let Ok(()) = check_fixed(kind, tiles, maxes)
        && in_order(kind, tiles as usize, mins, maxes)
    {
        return TwoBodies::told(tiles, Ok(()), Ok(()));
    }
    check_pair(kind, tiles, mins, maxes)
}

// Tile i's value, as its pattern, after the whole body is checked: 0 of a refused one.
pub fn tile_value(kind: Kind, tiles: u64, body: &[u8], i: u64) -> u64
    ensures { result ≡ value_answer kind tiles body.now i }
{
    open_values(kind, tiles, body).map_or(0, |n| value_at(kind, n, body, i))
}

// Tile i's min and max, after both bodies are checked together.
pub fn tile_bounds(kind: Kind, tiles: u64, mins: &[u8], maxes: &[u8], i: u64) -> Bounds
    ensures { result ≡ bounds_answer kind tiles mins.now maxes.now i }
{
    let pair = open_pair(kind, tiles, mins, maxes);
    let min = value_at(kind, pair.tiles, mins, i);
    let max = value_at(kind, pair.tiles, maxes, i);
    Bounds { min, max }
}

// Tile i's value with no check of the body, for one that is known to be accepted.
pub fn value_at(kind: Kind, tiles: u64, body: &[u8], i: u64) -> u64
    ensures { result ≡ pattern_of kind tiles body.now i }
{
    match kind {
        Kind::Int32 | Kind::Float32 => tile_metadata::four_at(tiles, body, i) as u64,
        Kind::Int64 | Kind::Float64 | Kind::Uint64 => tile_metadata::eight_at(tiles, body, i),
    }
}

// Mins whole, then maxes whole, then each min against its max.
fn check_pair(kind: Kind, tiles: u64, mins: &[u8], maxes: &[u8]) -> TwoBodies
    ensures { result ≡ pair_answer kind tiles mins.now maxes.now }
{
    match check_values(kind, tiles, mins) {
        Ok(()) => {
            let order = check_maxes(kind, tiles, mins, maxes);
            TwoBodies::told(tiles, Ok(()), order)
        }
        Err(refused) => TwoBodies::told(tiles, Err(refused), Ok(())),
    }
}

// The maxes, and then each min against its max.
fn check_maxes(kind: Kind, tiles: u64, mins: &[u8], maxes: &[u8]) -> Result<(), Refused>
    requires { 8 + end_bytes kind * tiles ≤ length mins.now }
    ensures { told result ≡ maxes_refusal kind tiles mins.now maxes.now }
{
    check_values(kind, tiles, maxes)?;
    check_order(kind, tiles as usize, mins, maxes)
}

// Layout, buffer size and values.
fn check_values(kind: Kind, tiles: u64, body: &[u8]) -> Result<(), Refused>
    ensures { told result ≡ values_refusal kind tiles body.now }
{
    check_fixed(kind, tiles, body)?;
    check_nans(kind, tiles as usize, body)
}

// What a body is refused for before its values: the layout, and a buffer size that isn't 0.
fn check_fixed(kind: Kind, tiles: u64, body: &[u8]) -> Result<(), Refused>
    ensures { told result ≡ fixed_refusal kind tiles body.now }
{
    let width = width_of(kind);
    tile_metadata::check_layout(width, tiles, body)?;
    let end = 8 + width as u64 * tiles;
    let size = order::u64_at(body, end as usize);
    Reason::Bytes.when(size != 0, body.len() as u64)
}

// The bytes of a value.
fn width_of(kind: Kind) -> u32
    ensures { result ≡ end_bytes kind }
{
    match kind {
        Kind::Int32 | Kind::Float32 => 4,
        Kind::Int64 | Kind::Float64 | Kind::Uint64 => 8,
    }
}

// The first value that is a NaN, looked for where there is one.
fn check_nans(kind: Kind, n: usize, body: &[u8]) -> Result<(), Refused>
    requires { 8 + end_bytes kind * n ≤ length body.now }
    ensures { told result ≡ nan_breaks kind n body.now }
{
    if no_nans(kind, n, body) {
        Ok(())
    } else {
        first_nan(kind, n, body)
    }
}

// Whether no value is a NaN. Each arm names its kind and its width, so that the compiler makes a loop for each; they
// stand apart as below.
#[inline(never)]
fn no_nans(kind: Kind, n: usize, body: &[u8]) -> bool
    requires { 8 + end_bytes kind * n ≤ length body.now }
    ensures { result ≡ true → (i : ℕ) → i < n → is_nan kind (pattern kind body.now i) ≡ false }
{
    match kind {
        Kind::Float32 => all_hold(n, |i| !nan_at(Kind::Float32, 4, i, body)),
        Kind::Float64 => all_hold(n, |i| !nan_at(Kind::Float64, 8, i, body)),
        Kind::Int32 | Kind::Int64 | Kind::Uint64 => true,
    }
}

fn first_nan(kind: Kind, n: usize, body: &[u8]) -> Result<(), Refused>
    requires { 8 + end_bytes kind * n ≤ length body.now }
    ensures { told result ≡ nan_breaks kind n body.now }
{
    let width = width_of(kind) as usize;
    for i in 0..n {
        let place = 8 + width * i;
        if nan_at(kind, width, i, body) {
            return Err(Reason::NotANumber.at(place as u64));
        }
    }
    Ok(())
}

// The bytes of value i, which are all there: of a part of its own a read drops its tests. A public
// function would test that they are, at each turn of a loop.
fn own_bytes(body: &[u8], width: usize, i: usize) -> &[u8]
    requires { 8 + width * i + width ≤ length body.now }
    ensures { little result.now 0 width ≡ value_at width body.now i }
{
    let at = 8 + width * i;
    let end = at + width;
    &body[at..end]
}

// Whether value i, which is all there, is a NaN.
fn nan_at(kind: Kind, width: usize, i: usize, body: &[u8]) -> bool
    requires width_value { width ≡ end_bytes kind }
    requires i_in_bounds { 8 + width * i + width ≤ length body.now }
    ensures { result ≡ is_nan kind (pattern kind body.now i) }
{
    is_nan(kind, own_bytes(body, width, i))
}

fn is_nan(kind: Kind, value: &[u8]) -> bool
    ensures { result ≡ is_nan kind (little value.now 0 (end_bytes kind)) }
{
    match kind {
        Kind::Float32 => f32::nan_pattern(order::u32_at(value, 0)),
        Kind::Float64 => f64::nan_pattern(order::u64_at(value, 0)),
        Kind::Int32 | Kind::Int64 | Kind::Uint64 => false,
    }
}

// The first min that is above its max. What it says where a value is a NaN, or not there, comes after that.
fn check_order(kind: Kind, n: usize, mins: &[u8], maxes: &[u8]) -> Result<(), Refused>
    requires { 8 + end_bytes kind * n ≤ length mins.now }
    ensures { told result ≡ order_breaks kind n mins.now maxes.now }
{
    let width = width_of(kind) as usize;
    for i in 0..n {
        let at = 8 + width * i;
        let min = key_at(kind, mins, at);
        let max = key_at(kind, maxes, at);
        if max < min {
            return Err(Reason::Reversed.at(at as u64));
        }
    }
    Ok(())
}

// The key of the pattern at a place: the order of a kind's values is that of their keys.
fn key_at(kind: Kind, body: &[u8], at: usize) -> u64
    ensures { result ≡ key kind (little body.now at (end_bytes kind)) }
{
    match kind {
        Kind::Int32 => i32::key(order::u32_at(body, at)) as u64,
        Kind::Int64 => i64::key(order::u64_at(body, at)),
        Kind::Float32 => f32::key(order::u32_at(body, at)) as u64,
        Kind::Float64 => f64::key(order::u64_at(body, at)),
        Kind::Uint64 => order::u64_at(body, at),
    }
}

// Whether every min is at most its max, which a NaN is not. Each arm names its kind and its width: arms that differ in
// nothing but the kind would be compiled to one loop. Integers of eight bytes go by eights: the processors that the
// library is compiled for have no instruction that compares several. Among the checks before them the compiler takes
// the loops for rare, and does not align them: so they stand apart.
#[inline(never)]
fn in_order(kind: Kind, n: usize, mins: &[u8], maxes: &[u8]) -> bool
    requires n_in_bounds { 8 + end_bytes kind * n ≤ length mins.now }
    requires n_in_bounds_2 { 8 + end_bytes kind * n ≤ length maxes.now }
    ensures { result ≡ true → (i : ℕ) → i < n
        → at_most (ordered kind) (pattern kind mins.now i) (pattern kind maxes.now i) ≡ true }
{
    match kind {
        Kind::Int32 => { all_hold(n, |i| ordered_at(Kind::Int32, 4, i, mins, maxes)) }
        Kind::Int64 => { all_hold_by_eights(n, |i| ordered_at(Kind::Int64, 8, i, mins, maxes)) }
        Kind::Float32 => { all_hold(n, |i| ordered_at(Kind::Float32, 4, i, mins, maxes)) }
        Kind::Float64 => { all_hold(n, |i| ordered_at(Kind::Float64, 8, i, mins, maxes)) }
        Kind::Uint64 => { all_hold_by_eights(n, |i| ordered_at(Kind::Uint64, 8, i, mins, maxes)) }
    }
}

// Whether tile i's min is at most its max, which are all there.
fn ordered_at(kind: Kind, width: usize, i: usize, mins: &[u8], maxes: &[u8]) -> bool
    requires width_value { width ≡ end_bytes kind }
    requires i_in_bounds { 8 + width * i + width ≤ length mins.now }
    requires i_in_bounds_2 { 8 + width * i + width ≤ length maxes.now }
    ensures { result ≡ at_most (ordered kind) (pattern kind mins.now i) (pattern kind maxes.now i) }
{
    let min = own_bytes(mins, width, i);
    let max = own_bytes(maxes, width, i);
    at_most(kind, min, max)
}

// Whether a min is at most a max, each in its own bytes. `key_at` has a second caller, which would keep it from being
// inlined here.
fn at_most(kind: Kind, min: &[u8], max: &[u8]) -> bool
    ensures { result ≡ at_most (ordered kind) (little min.now 0 (end_bytes kind))
        (little max.now 0 (end_bytes kind)) }
{
    match kind {
        Kind::Float32 => {
            let low = f32::of(order::u32_at(min, 0));
            let high = f32::of(order::u32_at(max, 0));
            low.at_most(high)
        }
        Kind::Float64 => {
            let low = f64::of(order::u64_at(min, 0));
            let high = f64::of(order::u64_at(max, 0));
            low.at_most(high)
        }
        Kind::Int32 => {
            let low = i32::key(order::u32_at(min, 0));
            let high = i32::key(order::u32_at(max, 0));
            u32_at_most(low, high)
        }
        Kind::Int64 => {
            let low = i64::key(order::u64_at(min, 0));
            let high = i64::key(order::u64_at(max, 0));
            low.at_most(high)
        }
        Kind::Uint64 => order::u64_at(min, 0).at_most(order::u64_at(max, 0)),
    }
}

fn u32_at_most(a: u32, b: u32) -> bool
    ensures { result ≡ leb a b }
{
    a <= b
}

// Whether a test holds of each of the first n tiles. What a test asks is told by whoever calls, and a public function asks
// nothing: so each crate that goes over tiles has a pass of its own.
fn all_hold<F: Fn(usize) -> bool>(n: usize, test: F) -> bool
    requires { (i : ℕ) → i < n → F.pre test i }
    ensures holds { result ≡ true → (i : ℕ) → i < n → F.post test i true }
    ensures fails { result ≡ false → (i : ℕ) × (i < n) × F.post test i false }
{
    all_between(0, n, test)
}

// The same, eight tiles at a time, which the compiler writes out.
fn all_hold_by_eights<F: Fn(usize) -> bool>(n: usize, test: F) -> bool
    requires { (i : ℕ) → i < n → F.pre test i }
    ensures holds { result ≡ true → (i : ℕ) → i < n → F.post test i true }
    ensures fails { result ≡ false → (i : ℕ) × (i < n) × F.post test i false }
{
    for block in 0..n / 8 {
        let from = 8 * block;
        if !all_between(from, from + 8, &test) {
            return false;
        }
    }
    all_between(n / 8 * 8, n, test)
}

// Whether a test holds of each tile from one on and before another. It goes through all of them, so that the compiler
// takes several at once.
fn all_between<F: Fn(usize) -> bool>(from: usize, to: usize, test: F) -> bool
    requires { (i : ℕ) → from ≤ i → i < to → F.pre test i }
    ensures holds { result ≡ true → (i : ℕ) → from ≤ i → i < to → F.post test i true }
    ensures fails { result ≡ false → (i : ℕ) × (from ≤ i) × (i < to) × F.post test i false }
{
    let mut all = true;
    for i in from..to {
        all &= test(i);
    }
    all
}
