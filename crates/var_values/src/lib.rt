// The mins and maxes of a var field, alone and as a pair, and a tile's value as a part of the lent body.
#![tactic(auto)]

ghost use Rattle.std.specs.Prelude.{◌≡◌, true, false, ℕ, ◌+◌, ◌*◌, ◌≤◌, ◌<◌, leb, length, unwrap_or};
ghost use Rattle.answers.specs.Told.{told};
ghost use Rattle.lists.specs.Lists.{entry};
ghost use Rattle.lists.specs.Offsets.{end_of};
ghost use Rattle.tile_metadata.specs.Bodies.{told_values, buffer_size, layout_refusal};
ghost use Rattle.var_values.specs.VarValues.{var_values_refusal, var_values_answer, var_pair_answer, nowhere};
ghost use Rattle.var_values.specs.VarValues.{var_place_of, var_place_answer, var_value_of, var_value_answer};

use answers::Refused;
use lists::Extent;
use tile_metadata::TwoBodies;

// The mins or the maxes of a field.
pub fn open_var_values(tiles: u64, body: &[u8]) -> Result<u64, Refused>
    ensures { told_values result ≡ var_values_answer tiles body.now }
{
    check_var_values(tiles, body)?;
    Ok(tiles)
}

// The mins and the maxes together.
pub fn open_var_pair(tiles: u64, mins: &[u8], maxes: &[u8]) -> TwoBodies
    ensures { result ≡ var_pair_answer tiles mins.now maxes.now }
{
    let first = check_var_values(tiles, mins);
    let second = check_var_values(tiles, maxes);
    TwoBodies::told(tiles, first, second)
}

// Tile i's value as that part of the lent body, after the whole body is checked: no bytes of a refused one.
pub fn tile_var_value(tiles: u64, body: &[u8], i: u64) -> &[u8]
    ensures { result.now ≡ var_value_answer tiles body.now i }
{
    match open_var_values(tiles, body) {
        Ok(n) => var_value_at(n, body, i),
        Err(_) => &body[..0],
    }
}

// Where that part lies in the lent body: the place of its first byte, and how many bytes it has.
pub fn tile_var_place(tiles: u64, body: &[u8], i: u64) -> Extent
    ensures { result ≡ var_place_answer tiles body.now i }
{
    let nowhere = Extent {
        offset: 0,
        extent: 0,
    };
    open_var_values(tiles, body).map_or(nowhere, |n| var_place_at(n, body, i))
}

// Tile i's value with no check of the body, for one that is known to be accepted.
pub fn var_value_at(tiles: u64, body: &[u8], i: u64) -> &[u8]
    ensures { result.now ≡ var_value_of tiles body.now i }
{
    let place = var_place_at(tiles, body, i);
    let from = place.offset as usize;
    let end = from + place.extent as usize;
    &body[from..end]
}

// Where it lies, with no check of the body: in the body, whatever bytes those are.
pub fn var_place_at(tiles: u64, body: &[u8], i: u64) -> Extent
    ensures { result ≡ var_place_of tiles body.now i }
{
    find_place(tiles, body, i).unwrap_or(Extent {
        offset: 0,
        extent: 0,
    })
}

// None where there is no such tile, or the bytes end before the value does.
fn find_place(tiles: u64, body: &[u8], i: u64) -> Option<Extent>
    ensures { unwrap_or result nowhere ≡ var_place_of tiles body.now i }
{
    let length = body.len() as u64;
    let words = length / 8;
    if tiles <= i || words < 2 || words - 2 < tiles {
        return None;
    }
    let start = 16 + 8 * tiles;
    let offset = word_at(body, i as usize);
    let end = end_of(tiles, body, i);
    let extent = end.saturating_sub(offset);
    let room = (length - start).checked_sub(offset)?;
    if room < extent {
        return None;
    }
    Some(Extent {
        offset: start + offset,
        extent,
    })
}

// Where tile i's value ends in the buffer: at the next start. Behind the last one stands the buffer's size.
fn end_of(tiles: u64, body: &[u8], i: u64) -> u64
    requires i_lt_tiles { i < tiles }
    requires tiles_in_bounds { 16 + 8 * tiles ≤ length body.now }
    ensures { result ≡ end_of tiles (buffer_size 8 tiles body.now) body.now i }
{
    let next = i as usize + 1;
    word_at(body, next)
}

// Start i, which is there; behind the last one stands the buffer's size. A public function would test that it is, at
// each turn of a loop.
fn word_at(body: &[u8], i: usize) -> u64
    requires { 16 + 8 * i ≤ length body.now }
    ensures { result ≡ entry body.now i }
{
    let at = 8 + 8 * i;
    let end = at + 8;
    order::u64_at(&body[at..end], 0)
}

// Layout and starts. One pass accepts starts that never fall; the first that breaks the rule is looked for where it
// doesn't.
fn check_var_values(tiles: u64, body: &[u8]) -> Result<(), Refused>
    ensures { told result ≡ var_values_refusal tiles body.now }
{
    tile_metadata::check_layout(8, tiles, body)?;
    if starts_rise(tiles as usize, body) {
        Ok(())
    } else {
        first_break(tiles, body)
    }
}

// Whether the first start is 0 and none is above the next one. Behind the last start stands the buffer's size, so that
// none is above that either.
fn starts_rise(n: usize, body: &[u8]) -> bool
    requires { 16 + 8 * n ≤ length body.now }
    ensures { result ≡ true → (entry body.now 0 ≡ 0) × ((i : ℕ) → i < n
        → entry body.now i ≤ entry body.now (i + 1)) }
{
    word_at(body, 0) == 0 && all_hold_by_eights(n, |i| rises(i, body))
}

// Whether start i is at most the next one, which are both there.
fn rises(i: usize, body: &[u8]) -> bool
    requires { 24 + 8 * i ≤ length body.now }
    ensures { result ≡ leb (entry body.now i) (entry body.now (i + 1)) }
{
    word_at(body, i) <= word_at(body, i + 1)
}

// The first start that breaks the rule, of a body that is laid out.
fn first_break(tiles: u64, body: &[u8]) -> Result<(), Refused>
    requires { (layout_refusal 8 tiles body.now).number ≡ 0 }
    ensures { told result ≡ var_values_refusal tiles body.now }
{
    let end = 8 + 8 * tiles;
    let size = order::u64_at(body, end as usize);
    entries::check_starts(body, tiles, size)
}

// Whether a test holds of each of the first n tiles, eight at a time, which the compiler writes out. What a test asks is told
// by whoever calls, and a public function asks nothing: so each crate that goes over tiles has a pass of its own.
fn all_hold_by_eights<F: Fn(usize) -> bool>(n: usize, test: F) -> bool
    requires { (i : ℕ) → i < n → F.pre test i }
    ensures holds { result ≡ true → (i : ℕ) → i < n → F.post test i true }
    ensures fails { result ≡ false → (i : ℕ) × (i < n) × F.post test i false }
{
    for block in 0..n / 8 {
        let from = 8 * block;
        if !all_between(from, from + 8, &test) {
            return false;
        }
    }
    all_between(n / 8 * 8, n, test)
}

// Whether a test holds of each tile from one on and before another. It goes through all of them, so that the compiler
// takes several at once.
fn all_between<F: Fn(usize) -> bool>(from: usize, to: usize, test: F) -> bool
    requires { (i : ℕ) → from ≤ i → i < to → F.pre test i }
    ensures holds { result ≡ true → (i : ℕ) → from ≤ i → i < to → F.post test i true }
    ensures fails { result ≡ false → (i : ℕ) × (from ≤ i) × (i < to) × F.post test i false }
{
    let mut all = true;
    for i in from..to {
        all &= test(i);
    }
    all
}
