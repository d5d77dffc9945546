// The lists of a fragment, tile offsets, var offsets and tile sizes: the check before a list's entries, and a tile's
// offset and extent. Whether the entries keep to their rules is asked in `entries`.
#![tactic(auto)]

ghost use Rattle.std.specs.Prelude.{◌≡◌, ◌-◌, ◌<◌};
ghost use Rattle.answers.specs.Told.{told};
ghost use Rattle.lists.specs.Lists.{entry, list_refusal};
ghost use Rattle.lists.specs.Offsets.{told_tiles, end_of, extent_at};
ghost use Rattle.lists.specs.Sizes.{told_sum};

use answers::{Reason, Refused};
use description::Description;

// As C has it. Number 0: not refused. An accepted list answers n.
#[derive(Clone, Copy)]
pub struct TileOffsets {
    pub number: u64,
    pub place: u64,
    pub tiles: u64,
}

// As C and the definitions have it.
impl From<Result<u64, Refused>> for TileOffsets {
    ghost from_gives = { λ answer r. r ≡ told_tiles answer };

    #[tactic(auto, unfolding(crate::specs::Offsets::told_tiles))]
    fn from(answer: Result<u64, Refused>) -> TileOffsets {
        match answer {
            Ok(tiles) => TileOffsets {
                number: 0,
                place: 0,
                tiles,
            },
            Err(e) => TileOffsets {
                number: e.reason.number(),
                place: e.place,
                tiles: 0,
            },
        }
    }
}

// As C has it. Number 0: not refused. An accepted list answers the sum of its sizes.
#[derive(Clone, Copy)]
pub struct TileSizes {
    pub number: u64,
    pub place: u64,
    pub sum: u64,
}

// As C and the definitions have it.
impl From<Result<u64, Refused>> for TileSizes {
    ghost from_gives = { λ answer r. r ≡ told_sum answer };

    #[tactic(auto, unfolding(crate::specs::Sizes::told_sum))]
    fn from(answer: Result<u64, Refused>) -> TileSizes {
        match answer {
            Ok(sum) => TileSizes {
                number: 0,
                place: 0,
                sum,
            },
            Err(e) => TileSizes {
                number: e.reason.number(),
                place: e.place,
                sum: 0,
            },
        }
    }
}

// Where a tile's bytes start in the data file, and how many they are.
#[derive(Clone, Copy)]
pub struct Extent {
    pub offset: u64,
    pub extent: u64,
}

// What a list is refused for before its entries, each of which has `width` bytes.
#[tactic(auto, using(answers::proofs::Told::stops), unfolding(answers::specs::Told::number_of, crate::specs::Lists::list_refusal_by))]
pub fn check_list(body: &[u8], tiles: u64, width: u32) -> Result<(), Refused>
    ensures { told result ≡ list_refusal tiles width body.now }
{
    Reason::Tiles.when(Description::tiles_outside(tiles), 0)?;
    let length = body.len() as u64;
    Reason::Bytes.when(length < 8, length)?;
    Reason::Count.when(order::u64_at(body, 0) != tiles, 0)?;
    let total = 8 + width as u64 * tiles;
    Reason::Bytes.when(length != total, length)
}

// Tile i's offset and extent with no check of the list, for one that is known to be accepted, of either kind.
#[tactic(auto, unfolding(crate::specs::Offsets::offset_of, crate::specs::Offsets::extent_of))]
pub fn extent_at(body: &[u8], tiles: u64, size: u64, i: u64) -> Extent
    ensures { result ≡ extent_at tiles size body.now i }
{
    if tiles <= i {
        return Extent {
            offset: 0,
            extent: 0,
        };
    }
    let offset = entry(body, i);
    let end = end_of(body, tiles, size, i);
    Extent {
        offset,
        extent: end.saturating_sub(offset),
    }
}

// Where tile i's bytes end: at the next offset, the last one's at S.
fn end_of(body: &[u8], tiles: u64, size: u64, i: u64) -> u64
    requires { i < tiles }
    ensures { result ≡ end_of tiles size body.now i }
{
    let next = i + 1;
    if next < tiles {
        entry(body, next)
    } else {
        size
    }
}

// Entry i, 0 past the end of the bytes.
fn entry(body: &[u8], i: u64) -> u64
    ensures { result ≡ entry body.now i }
{
    let words = body.len() as u64 / 8;
    if i < words {
        let place = 8 + 8 * i;
        order::u64_at(body, place as usize)
    } else {
        0
    }
}
