// The lists of a fragment as exported functions on numbers and slices. include/tussockbell.h declares them for C.
#![tactic(auto)]

ghost use Rattle.std.specs.Prelude.{◌≡◌};
ghost use Rattle.lists.specs.Offsets.{offsets_answer, extent_at, extent_answer};
ghost use Rattle.lists.specs.VarOffsets.{var_offsets_answer, var_extent_answer};
ghost use Rattle.lists.specs.Sizes.{sizes_answer};
ghost use Rattle.c_lists.specs.Places.{offsets_places, sizes_places, extent_places};

use lists::{Extent, TileOffsets, TileSizes};

// Checks tile offsets.
#[unsafe(no_mangle)]
pub extern "C" fn tussockbell_offsets(tiles: u64, size: u64, list: &[u8], answer: &mut [u64; 3])
    ensures { answer.new ≡ offsets_places (offsets_answer tiles size list.now) }
{
    *answer = offsets_places(TileOffsets::from(entries::open_offsets(list, tiles, size)));
}

// A tile's offset and extent, after the whole list is checked.
#[unsafe(no_mangle)]
pub extern "C" fn tussockbell_extent(
    tiles: u64,
    size: u64,
    list: &[u8],
    tile: u64,
    answer: &mut [u64; 2],
)
    ensures { answer.new ≡ extent_places (extent_answer tiles size list.now tile) }
{
    *answer = extent_places(extents::tile_extent(list, tiles, size, tile));
}

// Checks var offsets.
#[unsafe(no_mangle)]
pub extern "C" fn tussockbell_var_offsets(tiles: u64, size: u64, list: &[u8], answer: &mut [u64; 3])
    ensures { answer.new ≡ offsets_places (var_offsets_answer tiles size list.now) }
{
    *answer = offsets_places(TileOffsets::from(entries::open_var_offsets(list, tiles, size)));
}

// A tile's offset and extent in a list of var offsets, after the whole list is checked.
#[unsafe(no_mangle)]
pub extern "C" fn tussockbell_var_extent(
    tiles: u64,
    size: u64,
    list: &[u8],
    tile: u64,
    answer: &mut [u64; 2],
)
    ensures { answer.new ≡ extent_places (var_extent_answer tiles size list.now tile) }
{
    *answer = extent_places(extents::var_tile_extent(list, tiles, size, tile));
}

// The same with no check of the list, by either rule.
#[unsafe(no_mangle)]
pub extern "C" fn tussockbell_extent_at(
    tiles: u64,
    size: u64,
    list: &[u8],
    tile: u64,
    answer: &mut [u64; 2],
)
    ensures { answer.new ≡ extent_places (extent_at tiles size list.now tile) }
{
    *answer = extent_places(lists::extent_at(list, tiles, size, tile));
}

// Checks tile sizes, and adds them up.
#[unsafe(no_mangle)]
pub extern "C" fn tussockbell_sizes(tiles: u64, list: &[u8], answer: &mut [u64; 3])
    ensures { answer.new ≡ sizes_places (sizes_answer tiles list.now) }
{
    let r = TileSizes::from(entries::open_sizes(list, tiles));
    *answer = [r.number, r.place, r.sum];
}

fn offsets_places(r: TileOffsets) -> [u64; 3]
    ensures { result ≡ offsets_places r }
{
    [r.number, r.place, r.tiles]
}

fn extent_places(r: Extent) -> [u64; 2]
    ensures { result ≡ extent_places r }
{
    [r.offset, r.extent]
}
