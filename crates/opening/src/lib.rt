// Opening a footer and a tree body together.
#![tactic(auto)]

ghost use Rattle.std.specs.Prelude.{◌≡◌, ℕ, ◌-◌, ◌≤◌, ◌<◌};
ghost use Rattle.answers.specs.Refusals.{outside_domain};
ghost use Rattle.answers.specs.Checks.{otherwise, each};
ghost use Rattle.answers.specs.Told.{number_of, told};
ghost use Rattle.description.specs.Description.{bytes_of_box};
ghost use Rattle.description.specs.Limits.{least_tiles, most_tiles};
ghost use Rattle.description.specs.Rules.{rules_by};
ghost use Rattle.rtree.specs.Opening.{body_refusal, open_answer, open_answer_by};
ghost use Rattle.opening.specs.Code.Stored.{run_refusal, table_refusal, Run, TwoLevels};

use answers::{Reason, Refusal, Refused};
use description::Description;
use footer::Entry;
use rtree::Opened;

// Accepted, it answers n, f and L.
pub fn open(description: Description, file_size: u64, footer: &[u8], body: &[u8]) -> Opened
    ensures { result ≡ open_answer description file_size footer.now body.now }
{
    open_by(
        Refusal::from(description.check_retired()),
        description,
        file_size,
        footer,
        body,
    )
}

// The same by what is said of the description after 1. All else is a sparse fragment's, since no other has a tree.
pub fn open_by(
    further: Refusal,
    description: Description,
    file_size: u64,
    footer: &[u8],
    body: &[u8],
) -> Opened
    ensures { result ≡ open_answer_by (rules_by further) description file_size footer.now
        body.now }
{
    let checked = footer::check_by(Entry::sparse(further), description, file_size, footer);
    if checked.number != 0 {
        return rtree::refused_in(0, checked.number, checked.place);
    }
    let from = checked.domain as usize;
    let to = from + description.box_bytes();
    let told = check_body(description, checked.tiles, body, &footer[from..to]);
    if told.number != 0 {
        return rtree::refused_in(1, told.number, told.place);
    }
    Opened {
        number: 0,
        place: 0,
        which: 0,
        tiles: checked.tiles,
        fanout: order::u32_at(body, 0) as u64,
        levels: order::u32_at(body, 4) as u64,
    }
}

// The shape; then the first box inside the domain, and each row of children inside its parent, level by level.
fn check_body(description: Description, tiles: u64, body: &[u8], domain: &[u8]) -> Refusal
    requires least_tiles_le_tiles { least_tiles ≤ tiles }
    requires tiles_le_most_tiles { tiles ≤ most_tiles }
    requires description_nonzero { 0 < bytes_of_box description }
    ensures { result ≡ body_refusal description tiles domain.now body.now }
{
    let shaped = rtree::check_shape(description, tiles, body);
    if shaped.number != 0 {
        return Refusal::new(shaped.number, shaped.place);
    }
    let box_bytes = description.box_bytes();
    let shape = shaped.shape;
    let top = shape.levels - 1;
    Refusal::from(check_boxes(
        body,
        description,
        box_bytes,
        shaped.fanout,
        &shape.table,
        top,
        domain,
    ))
}

// The first box inside the domain, and each row of children inside its parent, level by level from the one at distance
// `top` down.
fn check_boxes(
    body: &[u8],
    description: Description,
    box_bytes: usize,
    fanout: usize,
    table: &[usize; 50],
    top: usize,
    domain: &[u8],
) -> Result<(), Refused>
    requires root { Run description body.now box_bytes 16 0 1 }
    requires below { (l : ℕ) → l < top → TwoLevels description body.now table.now box_bytes fanout (top - l) }
    ensures { told result ≡ otherwise (run_refusal description body.now domain.now outside_domain 16 0 1)
        (each (λ l. table_refusal description body.now table.now fanout (top - l)) 0 top) }
{
    let outside = Reason::OutsideDomain;
    check_row(body, description, box_bytes, 16, 0, 1, domain, outside)?;
    for l in 0..top {
        check_level(body, description, box_bytes, fanout, table, top - l)?;
    }
    Ok(())
}

// The level below the one at distance `above`, row by row: each row inside its parent. The table has the place of each
// level's first box, and its count.
fn check_level(
    body: &[u8],
    description: Description,
    box_bytes: usize,
    fanout: usize,
    table: &[usize; 50],
    above: usize,
) -> Result<(), Refused>
    requires { TwoLevels description body.now table.now box_bytes fanout above }
    ensures { told result ≡ table_refusal description body.now table.now fanout above }
{
    let below = above - 1;
    let start = tree::place_in(table, above);
    let parents = tree::count_in(table, above);
    let next = tree::place_in(table, below);
    let count = tree::count_in(table, below);
    for k in 0..parents {
        let at = start + k * box_bytes;
        let end = at + box_bytes;
        let first = k * fanout;
        let len = tree::row_length(fanout, count, first);
        check_row(
            body,
            description,
            box_bytes,
            next,
            first,
            len,
            &body[at..end],
            Reason::OutsideParent,
        )?;
    }
    Ok(())
}

// Of the boxes from `start` on, those from box `first` on, `count` of them, each inside one box: the fault of the first
// that has one, placed in the body.
fn check_row(
    body: &[u8],
    description: Description,
    box_bytes: usize,
    start: usize,
    first: usize,
    count: usize,
    outer: &[u8],
    reason: Reason,
) -> Result<(), Refused>
    requires { Run description body.now box_bytes start first count }
    ensures { told result ≡ run_refusal description body.now outer.now (number_of reason) start first count }
{
    let from = start + first * box_bytes;
    let to = from + count * box_bytes;
    let kinds = description.kinds;
    let row = &body[from..to];
    rows::check_row(row, kinds, description.dimensions, outer, reason).map_err(|e| e.moved(
        from as u64,
    ))
}
