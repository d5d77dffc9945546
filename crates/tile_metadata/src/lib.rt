// What the mins, maxes, sums and null counts of a field's tiles have in common: the check before a body's values, what
// one body and two that are lent together answer, and tile i's value as it stands there.
#![tactic(auto)]

ghost use Rattle.std.specs.Prelude.{◌≡◌, ◌+◌, ◌*◌, ◌≤◌, ◌<◌, ℕ, true, false, length};
ghost use Rattle.order.specs.Little.{little};
ghost use Rattle.answers.specs.Told.{told};
ghost use Rattle.tile_metadata.specs.Bodies.{layout_refusal, answered, told_values, together, value_at, value_of};

use answers::{Reason, Refusal, Refused};
use description::Description;

// What one body answers: a refusal, or n.
#[derive(Clone, Copy)]
pub struct TileValues {
    pub number: u64,
    pub place: u64,
    pub tiles: u64,
}

// Number 0: not refused. `which` of the two that were lent together the place counts in: 0 the first, 1 the second.
#[derive(Clone, Copy)]
pub struct TwoBodies {
    pub number: u64,
    pub place: u64,
    pub which: u64,
    pub tiles: u64,
}

// An accepted body answers n.
pub fn answered(tiles: u64, refusal: Refusal) -> TileValues
    ensures { result ≡ answered tiles refusal }
{
    let number = refusal.number;
    TileValues {
        number,
        place: refusal.place,
        tiles: if number == 0 { tiles } else { 0 },
    }
}

// What is said of two, the first before the second.
pub fn together(tiles: u64, first: Refusal, second: Refusal) -> TwoBodies
    ensures { result ≡ together tiles first second }
{
    if first.number != 0 {
        return TwoBodies {
            number: first.number,
            place: first.place,
            which: 0,
            tiles: 0,
        };
    }
    if second.number != 0 {
        return TwoBodies {
            number: second.number,
            place: second.place,
            which: 1,
            tiles: 0,
        };
    }
    TwoBodies {
        number: 0,
        place: 0,
        which: 0,
        tiles,
    }
}

// As C and the definitions have it.
impl From<Result<u64, Refused>> for TileValues {
    ghost from_gives = { λ answer v. v ≡ told_values answer };

    #[tactic(auto, unfolding(crate::specs::Bodies::told_values, answers::specs::Told::told))]
    fn from(answer: Result<u64, Refused>) -> TileValues {
        match answer {
            Ok(tiles) => TileValues {
                number: 0,
                place: 0,
                tiles,
            },
            Err(e) => TileValues {
                number: e.reason.number(),
                place: e.place,
                tiles: 0,
            },
        }
    }
}

impl TwoBodies {
    // The same of what two checks told.
    pub fn told(tiles: u64, first: Result<(), Refused>, second: Result<(), Refused>) -> TwoBodies
        ensures { result ≡ together tiles (told first) (told second) }
    {
        together(tiles, Refusal::from(first), Refusal::from(second))
    }
}

// What mins or maxes are refused for before their values, each of which has `width` bytes.
pub fn check_layout(width: u32, tiles: u64, body: &[u8]) -> Result<(), Refused>
    ensures { told result ≡ layout_refusal width tiles body.now }
{
    let outside = description::outside(Description::LEAST_TILES, Description::MOST_TILES, tiles);
    Reason::Tiles.when(outside, 0)?;
    let length = body.len() as u64;
    Reason::Bytes.when(length < 8, length)?;
    Reason::Count.when(order::u64_at(body, 0) != tiles, 0)?;
    let end = 8 + width as u64 * tiles;
    let size = order::u64_at(body, end as usize);
    let rest = length.checked_sub(end + 8);
    Reason::Bytes.when(rest != Some(size), length)
}

// Tile i's value of four bytes with no check of the body: 0 past the last tile, and a byte past the end counts 0.
pub fn four_at(tiles: u64, body: &[u8], i: u64) -> u32
    ensures { result ≡ value_of 4 tiles body.now i }
{
    order::u32_at(value_bytes(4, tiles, body, i), 0)
}

// The same of eight bytes.
pub fn eight_at(tiles: u64, body: &[u8], i: u64) -> u64
    ensures { result ≡ value_of 8 tiles body.now i }
{
    order::u64_at(value_bytes(8, tiles, body, i), 0)
}

// The bytes of tile i's value, as many as are there, and none past the last tile. One test tells a value that is there:
// whether the word of eight bytes that it ends in is.
fn value_bytes(width: usize, tiles: u64, body: &[u8], i: u64) -> &[u8]
    requires some { 1 ≤ width }
    requires most { width ≤ 8 }
    ensures { little result.now 0 width ≡ value_of width tiles body.now i }
{
    let length = body.len();
    if tiles <= i {
        return &body[..0];
    }
    let word = i / (8 / width as u64) + 1;
    if word < length as u64 / 8 {
        return own_bytes(body, width, i as usize);
    }
    if (length / width) as u64 <= i {
        return &body[..0];
    }
    let start = 8 + width * i as usize;
    &body[start.min(length)..]
}

// The bytes of value i, which are all there: of a part of its own a read drops its tests.
fn own_bytes(body: &[u8], width: usize, i: usize) -> &[u8]
    requires { 8 + width * i + width ≤ length body.now }
    ensures { little result.now 0 width ≡ value_at width body.now i }
{
    let at = 8 + width * i;
    let end = at + width;
    &body[at..end]
}
