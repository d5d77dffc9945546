// The R-tree body: its fields and its shape, which opening and the window query both check first.
#![tactic(auto)]

ghost use Rattle.std.specs.Prelude.{◌≡◌, ℕ, ◌≤◌, ◌<◌, length};
ghost use Rattle.answers.specs.Refusals.{refusal};
ghost use Rattle.answers.specs.Checks.{otherwise};
ghost use Rattle.answers.specs.Told.{told};
ghost use Rattle.tree.specs.Shape.{place_in};
ghost use Rattle.rtree.specs.Body.{levels_of, front_refusal, size_refusal};
ghost use Rattle.rtree.specs.Opening.{refused_in};
ghost use Rattle.rtree.specs.Code.Shaped.{IsShaped, tiles_refusal, table_refusal};

use answers::{Reason, Refusal, Refused};
use description::Description;
use tree::Shape;

// What opening answers. `which` of the two byte strings the place counts in: 0 the footer, 1 the body.
#[derive(Clone, Copy)]
pub struct Opened {
    pub number: u64,
    pub place: u64,
    pub which: u64,
    pub tiles: u64,
    pub fanout: u64,
    pub levels: u64,
}

// Refused: every other number is 0. Which of the two, and the number, may come out of a state that C keeps, so they are
// taken as they are.
pub fn refused_in(which: u64, number: u64, place: u64) -> Opened
    ensures { result ≡ refused_in which (refusal number place) }
{
    Opened {
        number,
        place,
        which,
        tiles: 0,
        fanout: 0,
        levels: 0,
    }
}

// What the check of a body's shape tells: its refusal, the stored fanout, and the shape that the tree has with it.
#[derive(Clone, Copy)]
pub struct Shaped {
    pub number: u64,
    pub place: u64,
    pub fanout: usize,
    pub shape: Shape,
}

// 10 for n; then the shape: fewer than 8 bytes, 2; 13; the number of levels, 14; the bytes of the whole, 2; each
// level's count, 14.
pub fn check_shape(description: Description, tiles: u64, body: &[u8]) -> Shaped
    ensures { IsShaped description tiles body.now result }
{
    let box_bytes = description.box_bytes();
    let fanout = order::u32_at(body, 0) as usize;
    let shape = tree::shape_of(tiles as usize, fanout, box_bytes);
    let table = shape.table;
    let told = Refusal::from(check_by(tiles, body, fanout, shape.levels, shape.bytes, &table));
    Shaped {
        number: told.number,
        place: told.place,
        fanout,
        shape,
    }
}

// The same by the shape's numbers and its table. Each check is made, whatever one before it says: with an end at the
// first refusal the compiler leaves two more copies of the table standing in a query.
fn check_by(
    tiles: u64,
    body: &[u8],
    fanout: usize,
    levels: usize,
    bytes: usize,
    table: &[usize; 50],
) -> Result<(), Refused>
    requires { (j : ℕ) → j < levels → 8 ≤ place_in table.now j }
    ensures { told result ≡ otherwise (otherwise (tiles_refusal tiles)
        (front_refusal (length body.now) fanout))
        (otherwise (size_refusal levels bytes (length body.now) (levels_of body.now))
        (table_refusal body.now table.now levels)) }
{
    let shown = check_size(body, levels, bytes).and(check_counts(body, table, levels));
    check_front(tiles, body.len(), fanout).and(shown)
}

// 10; fewer than 8 bytes, 2; 13.
#[tactic(auto, unfolding(crate::specs::Body::front_refusal, answers::specs::Checks::first, answers::specs::Told::number_of, answers::specs::Told::told))]
fn check_front(tiles: u64, bytes: usize, fanout: usize) -> Result<(), Refused>
    ensures { told result ≡ otherwise (tiles_refusal tiles) (front_refusal bytes fanout) }
{
    Reason::Tiles.when(Description::tiles_outside(tiles), 0)?;
    Reason::Bytes.when(bytes < 8, bytes as u64)?;
    Reason::Fanout.when(Description::fanout_outside(fanout as u64), 0)
}

// The number of levels, 14; the bytes of the whole, 2.
#[tactic(auto, unfolding(crate::specs::Body::size_refusal, answers::specs::Checks::first, answers::specs::Told::number_of, answers::specs::Told::told))]
fn check_size(body: &[u8], levels: usize, whole: usize) -> Result<(), Refused>
    ensures { told result ≡ size_refusal levels whole (length body.now) (levels_of body.now) }
{
    let bytes = body.len();
    Reason::Levels.when(order::u32_at(body, 4) as usize != levels, 4)?;
    Reason::Bytes.when(bytes != whole, bytes as u64)
}

// Each level's count, from the root's down: the table has the place of a level's first box, before which its count
// stands, and what it has to be.
fn check_counts(body: &[u8], table: &[usize; 50], levels: usize) -> Result<(), Refused>
    requires { (j : ℕ) → j < levels → 8 ≤ place_in table.now j }
    ensures { told result ≡ table_refusal body.now table.now levels }
{
    for i in 0..levels {
        let j = levels - 1 - i;
        let place = tree::place_in(table, j) - 8;
        let count = tree::count_in(table, j);
        Reason::Levels.when(order::u64_at(body, place) != count as u64, place as u64)?;
    }
    Ok(())
}
