// What is asked of a tile with no check of the body, as exported functions. They stand apart from those that check, so
// that each is compiled whole: of a function that is called, and answers two numbers, these would go through memory.
#![tactic(auto)]

ghost use Rattle.std.specs.Prelude.{◌≡◌, get_or, take, drop};
ghost use Rattle.var_values.specs.VarValues.{var_place_of, var_value_of};
ghost use Rattle.tile_counts.specs.Counts.{sum_of};
ghost use Rattle.c_values_at.specs.Places.{numbered_pattern, part_places};

use description::Kind;

// A tile's value of a fixed kind.
#[unsafe(no_mangle)]
pub extern "C" fn tussockbell_value_at(kind: u64, tiles: u64, body: &[u8], tile: u64) -> u64
    ensures { result ≡ numbered_pattern kind tiles body.now tile }
{
    let known = Kind::of(kind);
    if kind == known.datatype() {
        tile_values::value_at(known, tiles, body, tile)
    } else {
        0
    }
}

// Where a tile's value of a var field lies in the lent body.
#[unsafe(no_mangle)]
pub extern "C" fn tussockbell_var_value_at(
    tiles: u64,
    body: &[u8],
    tile: u64,
    answer: &mut [u64; 2],
)
    ensures places { answer.new ≡ part_places (var_place_of tiles body.now tile) }
    ensures value { take (get_or answer.new 1 0) (drop (get_or answer.new 0 0)
        body.now) ≡ var_value_of tiles body.now tile }
{
    let r = var_values::var_place_at(tiles, body, tile);
    *answer = [r.offset, r.extent];
}

// A tile's sum or null count.
#[unsafe(no_mangle)]
pub extern "C" fn tussockbell_sum_at(tiles: u64, body: &[u8], tile: u64) -> u64
    ensures { result ≡ sum_of tiles body.now tile }
{
    tile_counts::sum_at(tiles, body, tile)
}
