// A tile's offset and extent, after the whole list is checked.
#![tactic(auto)]

ghost use Rattle.std.specs.Prelude.{◌≡◌};
ghost use Rattle.lists.specs.Offsets.{extent_answer};
ghost use Rattle.lists.specs.VarOffsets.{var_extent_answer};

use lists::Extent;

// Tile i's offset and extent, after the whole list is checked: a refused one has none.
pub fn tile_extent(body: &[u8], tiles: u64, size: u64, i: u64) -> Extent
    ensures { result ≡ extent_answer tiles size body.now i }
{
    let listed = entries::open_offsets(body, tiles, size).unwrap_or(0);
    lists::extent_at(body, listed, size, i)
}

// Tile i's offset and extent in a list of var offsets, after the whole list is checked.
pub fn var_tile_extent(body: &[u8], tiles: u64, size: u64, i: u64) -> Extent
    ensures { result ≡ var_extent_answer tiles size body.now i }
{
    let listed = entries::open_var_offsets(body, tiles, size).unwrap_or(0);
    lists::extent_at(body, listed, size, i)
}
