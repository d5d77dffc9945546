// Mins and maxes as exported functions on numbers and slices. include/tussockbell.h declares them for C.
#![tactic(auto)]

ghost use Rattle.std.specs.Prelude.{◌≡◌, Some, None, get_or, take, drop};
ghost use Rattle.tile_metadata.specs.Bodies.{told_values};
ghost use Rattle.var_values.specs.VarValues.{var_values_answer, var_pair_answer, var_place_answer, var_value_of};
ghost use Rattle.var_values.specs.VarValues.{var_value_answer};
ghost use Rattle.c_values.specs.Numbered.{numbered_values, numbered_pair, numbered_value};
ghost use Rattle.c_values.specs.Numbered.{numbered_bounds, of_kind};
ghost use Rattle.c_values.specs.Places.{values_places, ranges_places, range_places, part_places};

use answers::{Reason, Refused};
use description::Kind;
use lists::Extent;
use tile_metadata::{TileValues, TwoBodies};
use tile_values::Bounds;

// Checks the mins or the maxes of a fixed kind.
#[unsafe(no_mangle)]
pub extern "C" fn tussockbell_values(kind: u64, tiles: u64, body: &[u8], answer: &mut [u64; 3])
    ensures { answer.new ≡ values_places (numbered_values kind tiles body.now) }
{
    *answer = values_places(TileValues::from(numbered_values(kind, tiles, body)));
}

// A tile's value, after the whole body is checked.
#[unsafe(no_mangle)]
pub extern "C" fn tussockbell_value(kind: u64, tiles: u64, body: &[u8], tile: u64) -> u64
    ensures { result ≡ numbered_value kind tiles body.now tile }
{
    match known(kind) {
        Some(kind) => tile_values::tile_value(kind, tiles, body, tile),
        None => 0,
    }
}

// Checks mins and maxes together.
#[unsafe(no_mangle)]
pub extern "C" fn tussockbell_ranges(
    kind: u64,
    tiles: u64,
    mins: &[u8],
    maxes: &[u8],
    answer: &mut [u64; 4],
)
    ensures { answer.new
        ≡ ranges_places (numbered_pair kind tiles mins.now maxes.now) }
{
    *answer = ranges_places(numbered_pair(kind, tiles, mins, maxes));
}

// A tile's min and max, after both bodies are checked together.
#[unsafe(no_mangle)]
pub extern "C" fn tussockbell_range(
    kind: u64,
    tiles: u64,
    mins: &[u8],
    maxes: &[u8],
    tile: u64,
    answer: &mut [u64; 2],
)
    ensures { answer.new
        ≡ range_places (numbered_bounds kind tiles mins.now maxes.now tile) }
{
    let r = numbered_bounds(kind, tiles, mins, maxes, tile);
    *answer = [r.min, r.max];
}

// Checks the mins or the maxes of a var field.
#[unsafe(no_mangle)]
pub extern "C" fn tussockbell_var_values(tiles: u64, body: &[u8], answer: &mut [u64; 3])
    ensures { answer.new ≡ values_places (var_values_answer tiles body.now) }
{
    *answer = values_places(TileValues::from(var_values::open_var_values(tiles, body)));
}

// Where a tile's value lies in the lent body, after the whole body is checked.
#[unsafe(no_mangle)]
pub extern "C" fn tussockbell_var_value(tiles: u64, body: &[u8], tile: u64, answer: &mut [u64; 2])
    ensures places { answer.new ≡ part_places (var_place_answer tiles body.now tile) }
    ensures value { take (get_or answer.new 1 0) (drop (get_or answer.new 0 0)
        body.now) ≡ var_value_answer tiles body.now tile }
{
    *answer = part_places(var_values::tile_var_place(tiles, body, tile));
}

// Checks mins and maxes of a var field together.
#[unsafe(no_mangle)]
pub extern "C" fn tussockbell_var_ranges(
    tiles: u64,
    mins: &[u8],
    maxes: &[u8],
    answer: &mut [u64; 4],
)
    ensures { answer.new
        ≡ ranges_places (var_pair_answer tiles mins.now maxes.now) }
{
    *answer = ranges_places(var_values::open_var_pair(tiles, mins, maxes));
}

fn numbered_values(kind: u64, tiles: u64, body: &[u8]) -> Result<u64, Refused>
    ensures { told_values result ≡ numbered_values kind tiles body.now }
{
    match known(kind) {
        Some(kind) => tile_values::open_values(kind, tiles, body),
        None => Err(Reason::Description.at(0)),
    }
}

fn numbered_pair(kind: u64, tiles: u64, mins: &[u8], maxes: &[u8]) -> TwoBodies
    ensures { result ≡ numbered_pair kind tiles mins.now maxes.now }
{
    match known(kind) {
        Some(kind) => tile_values::open_pair(kind, tiles, mins, maxes),
        None => TwoBodies::told(tiles, Err(Reason::Description.at(0)), Ok(())),
    }
}

fn numbered_bounds(kind: u64, tiles: u64, mins: &[u8], maxes: &[u8], tile: u64) -> Bounds
    ensures { result ≡ numbered_bounds kind tiles mins.now maxes.now tile }
{
    match known(kind) {
        Some(kind) => tile_values::tile_bounds(kind, tiles, mins, maxes, tile),
        None => Bounds { min: 0, max: 0 },
    }
}

// The kind that a number is some kind's.
fn known(number: u64) -> Option<Kind>
    ensures { result ≡ of_kind number (λ kind. Some kind) None }
{
    let kind = Kind::of(number);
    if number == kind.datatype() {
        Some(kind)
    } else {
        None
    }
}

fn values_places(r: TileValues) -> [u64; 3]
    ensures { result ≡ values_places r }
{
    [r.number, r.place, r.tiles]
}

fn ranges_places(r: TwoBodies) -> [u64; 4]
    ensures { result ≡ ranges_places r }
{
    [r.number, r.place, r.which, r.tiles]
}

fn part_places(r: Extent) -> [u64; 2]
    ensures { result ≡ part_places r }
{
    [r.offset, r.extent]
}
