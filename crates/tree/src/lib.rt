// The shape of a packed tree, from its tiles and its fanout: how many boxes each level has and where they stand in a
// body. A level is named by its distance from the leaves.
#![tactic(auto)]

ghost use Rattle.std.specs.Prelude.{◌≡◌, ◌+◌, ◌-◌, ◌*◌, ◌≤◌, min};
ghost use Rattle.std.proofs.lemmas.List.Edits.{sets};
ghost use Rattle.description.specs.Limits.{Sizes};
ghost use Rattle.tree.specs.Shape.{up, levels, all_boxes, level_start, most_box_bytes};
ghost use Rattle.tree.specs.Shape.{outside_limits, places_and_counts, shape_of, place_in, count_in};

use description::Description;

// The most bytes of a box: four dimensions of 16.
const MOST_BOX_BYTES: usize = 64;

// The shape of a packed tree in a body whose boxes have `box_bytes` bytes.
#[derive(Clone, Copy)]
pub struct Shape {
    // L
    pub levels: usize,
    // all boxes
    pub boxes: usize,
    // 8 + 8L + B times all boxes: the bytes of the whole body
    pub bytes: usize,
    // by distance j from the leaves: the place of the level's first box at 2j, its box count at 2j + 1; 0 past the root.
    // It is the list of the definitions, and `place_in` and `count_in` read it
    pub table: [usize; 50],
}

// Every number is 0 where the tiles or the fanout are outside the limits, or where no box has so many bytes.
pub fn shape_of(tiles: usize, fanout: usize, box_bytes: usize) -> Shape
    ensures { result ≡ shape_of fanout tiles box_bytes }
{
    let mut table = [0usize; 50];
    if outside_limits(tiles, fanout, box_bytes) {
        return Shape {
            levels: 0,
            boxes: 0,
            bytes: 0,
            table,
        };
    }
    let filled = fill(&mut table, fanout, box_bytes, tiles, 0);
    Shape {
        levels: filled.levels,
        boxes: filled.boxes,
        bytes: 8 + 8 * filled.levels + box_bytes * filled.boxes,
        table,
    }
}

// How many boxes the row of children from `first` on has, in a level of `below` boxes.
pub fn row_length(fanout: usize, below: usize, first: usize) -> usize
    ensures { result ≡ min fanout (below - first) }
{
    answers::lesser(fanout, below.saturating_sub(first))
}

// Of the level at distance j, in a shape's table: the place of its first box.
pub fn place_in(table: &[usize], j: usize) -> usize
    ensures { result ≡ place_in table.now j }
{
    let n = table.len();
    if j < n - n / 2 { table[2 * j] } else { 0 }
}

// And its box count.
pub fn count_in(table: &[usize], j: usize) -> usize
    ensures { result ≡ count_in table.now j }
{
    if j < table.len() / 2 {
        table[2 * j + 1]
    } else {
        0
    }
}

fn outside_limits(tiles: usize, fanout: usize, box_bytes: usize) -> bool
    ensures { result ≡ outside_limits fanout tiles box_bytes }
{
    Description::tiles_outside(tiles as u64)
        || Description::fanout_outside(fanout as u64)
        || MOST_BOX_BYTES < box_bytes
}

// What a level gives back to the one below it: L, the boxes from it up to the root, the place of its first box.
#[derive(Clone, Copy)]
struct Filled {
    levels: usize,
    boxes: usize,
    place: usize,
}

// By recursion on the level's distance from the leaves: its count is worked out from the level below it, its place from
// the level above it. Fills the table from this level, which has `count` boxes, up to the root.
fn fill(
    table: &mut [usize; 50],
    fanout: usize,
    box_bytes: usize,
    count: usize,
    distance: usize,
) -> Filled
    requires sizes { Sizes count fanout }
    requires box_bytes_le_most_box_bytes { box_bytes ≤ most_box_bytes }
    requires count_bound { distance + levels fanout count ≤ 25 }
    ensures levels_value { result.levels ≡ distance + levels fanout count }
    ensures boxes_value { result.boxes ≡ all_boxes fanout count }
    ensures place_value { result.place ≡ level_start fanout count box_bytes 0 }
    ensures table_after { table.new
        ≡ sets table.old (2 * distance) (places_and_counts fanout count box_bytes) }
{
    let at = 2 * distance;
    table[at + 1] = count;
    if count == 1 {
        table[at] = 16;
        return Filled {
            levels: distance + 1,
            boxes: 1,
            place: 16,
        };
    }
    let next = above(fanout, count);
    let filled = fill(table, fanout, box_bytes, next, distance + 1);
    let place = filled.place + next * box_bytes + 8;
    table[at] = place;
    Filled {
        levels: filled.levels,
        boxes: filled.boxes + count,
        place,
    }
}

// The count of the level above one of `count` boxes.
fn above(fanout: usize, count: usize) -> usize
    requires { Sizes count fanout }
    ensures { result ≡ up fanout count }
{
    (count + (fanout - 1)) / fanout
}
