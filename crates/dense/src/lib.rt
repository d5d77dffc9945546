// A window on a dense array: which tiles does it touch? A dense array has no tree: its tiles are a grid, numbered in
// row-major or column-major order.
#![tactic(auto)]

ghost use Rattle.std.specs.Prelude.{◌≡◌, [], ◌∷◌, ◌++◌, ◌+◌, ◌-◌, ◌*◌, ◌/◌, ◌^◌, ◌≤◌, ◌<◌, length, get_or};
ghost use Rattle.answers.specs.Told.{told};
ghost use Rattle.answers.specs.Checks.{each};
ghost use Rattle.answers.specs.Runs.{join, filled};
ghost use Rattle.description.specs.Limits.{most_tiles};
ghost use Rattle.boxes.specs.Boxes.{range_in};
ghost use Rattle.dense.specs.Grid.{product};
ghost use Rattle.dense.specs.Dense.{low_key, high_key, tiles_along, split_refusal, dimension_of};
ghost use Rattle.dense.specs.Dense.{grid_refusal, dense_refusal, told_found, dense_answer, dense_buffer};
ghost use Rattle.dense.specs.Code.Spans.{capped, Splits, axis_of, axes_of, span_at, Capped, numbers_of, Held, Filled};
ghost use Rattle.dense.specs.Code.Spans.{row_of};

use answers::{Reason, Refused};
use boxes::{Side, Window};
use description::Description;
use ranges::Range;

// In row-major order the last dimension is the fastest, in column-major order the first.
#[derive(Clone, Copy, Debug, PartialEq, Eq)]
pub enum Order {
    RowMajor,
    ColumnMajor,
}

// What a query answers, as C and the definitions have it: a refusal, or how many tiles are touched.
#[derive(Clone, Copy)]
pub struct DenseAnswer {
    pub number: u64,
    pub place: u64,
    pub found: u64,
}

impl From<Result<u64, Refused>> for DenseAnswer {
    ghost from_gives = { λ answer r. r ≡ told_found answer };

    #[tactic(auto, unfolding(crate::specs::Dense::told_found))]
    fn from(answer: Result<u64, Refused>) -> DenseAnswer {
        match answer {
            Ok(found) => DenseAnswer {
                number: 0,
                place: 0,
                found,
            },
            Err(e) => DenseAnswer {
                number: e.reason.number(),
                place: e.place,
                found: 0,
            },
        }
    }
}

// The keys of a range's ends.
#[derive(Clone, Copy)]
struct Keys {
    low: u64,
    high: u64,
}

// One axis: its number of tiles, the first that the window meets, and how many it meets.
#[derive(Clone, Copy)]
struct Axis {
    tiles: u64,
    first: u64,
    span: u64,
}

// One more than the most tiles: what stands for every number above the most.
const TOO_MANY: u64 = Description::MOST_TILES + 1;

impl Keys {
    fn of(range: Range) -> Keys
        ensures { (result.low ≡ low_key range) × (result.high ≡ high_key range) }
    {
        let kind = range.kind();
        let ends = range.patterns();
        Keys {
            low: keys::key_of(kind, ends.low),
            high: keys::key_of(kind, ends.high),
        }
    }

    // The cells but one, where they are all of a domain.
    fn but_one(self) -> u64
        ensures { result ≡ self.high - self.low }
    {
        self.high.saturating_sub(self.low)
    }

    // How many tiles there are along a dimension, or 1 more than the most.
    fn tiles(self, extent: u64) -> u64
        requires { 0 < extent }
        ensures { result ≡ capped ((self.high - self.low) / extent + 1) }
    {
        capped((self.but_one() / extent).saturating_add(1))
    }
}

impl Axis {
    const NONE: Axis = Axis {
        tiles: 0,
        first: 0,
        span: 0,
    };

    fn of(domain: Keys, extent: u64, window: Keys) -> Axis
        requires { 0 < extent }
        ensures { result ≡ axis_of domain.low domain.high extent window.low window.high }
    {
        let tiles = domain.tiles(extent);
        if window.low <= domain.high && domain.low <= window.high {
            let first = window.low.saturating_sub(domain.low) / extent;
            let last = window.high.min(domain.high).saturating_sub(domain.low) / extent;
            let span = capped(last.saturating_sub(first).saturating_add(1));
            return Axis { tiles, first, span };
        }
        Axis {
            tiles,
            ..Axis::NONE
        }
    }
}

// How many tiles are touched; the buffer's first places hold the first of them, as many as fit.
pub fn query(
    description: Description,
    domain: Window,
    extents: [u64; 4],
    order: Order,
    window: Window,
    out: &mut [u32],
) -> Result<u64, Refused>
    ensures answer { told_found result ≡ dense_answer description domain extents window order }
    ensures buffer { out.new ≡ dense_buffer description domain extents window order out.old }
{
    check_query(description, domain, extents, window)?;
    let n = description::sides_of(description.dimensions);
    let axes = axes_of(n, domain.sides, extents, order, window.sides);
    let found = found_of(axes, n);
    // Else a slow axis would be walked through for nothing.
    if found != 0 {
        fill(axes, 0, n - 1, 0, 0, out);
    }
    Ok(found)
}

// The grid, then the window.
fn check_query(
    description: Description,
    domain: Window,
    extents: [u64; 4],
    window: Window,
) -> Result<(), Refused>
    ensures { told result ≡ dense_refusal description domain extents window }
{
    check_grid(description, domain, extents)?;
    windows::check_window(description, window)
}

// The checks of a grid: 1 and 28, the domain as a query's box, 29 per dimension, 10.
pub fn check_grid(
    description: Description,
    domain: Window,
    extents: [u64; 4],
) -> Result<(), Refused>
    ensures { told result ≡ grid_refusal description domain extents }
{
    description.check()?;
    windows::check_window(description, domain)?;
    let n = description::sides_of(description.dimensions);
    check_splits(n, domain.sides, extents)?;
    let tiles = tiles_of(n, domain.sides, extents);
    Reason::Tiles.when(tiles > Description::MOST_TILES, 0)
}

// The first dimension that does not split into whole tiles.
fn check_splits(n: usize, sides: [Side; 4], extents: [u64; 4]) -> Result<(), Refused>
    requires { n ≤ 4 }
    ensures { told result ≡ each (λ i. split_refusal (range_in sides i) (get_or extents i 0) i) 0 n }
{
    for i in 0..n {
        check_split(sides[i].range, extents[i], i as u64)?;
    }
    Ok(())
}

// 29. A domain of 2^64 cells is one cell more than fits a number, so this asks of the cells but one.
fn check_split(range: Range, extent: u64, place: u64) -> Result<(), Refused>
    ensures { told result ≡ split_refusal range extent place }
{
    if range.kind().is_float() || extent == 0 {
        return Err(Reason::Grid.at(place));
    }
    let rest = Keys::of(range).but_one() % extent;
    Reason::Grid.when(rest != extent - 1, place)
}

// How many tiles there are, or 1 more than the most.
fn tiles_of(n: usize, sides: [Side; 4], extents: [u64; 4]) -> u64
    requires { (n ≤ 4) × Splits sides extents n }
    ensures { result ≡ capped (product (λ i. tiles_along (range_in sides i) (get_or extents i 0)) 0 n) }
{
    let mut tiles: u64 = 1;
    for i in 0..n {
        let along = Keys::of(sides[i].range).tiles(extents[i]);
        tiles = capped(tiles.saturating_mul(along));
    }
    tiles
}

// One more than the most tiles stands for every number above the most.
fn capped(x: u64) -> u64
    ensures { result ≡ capped x }
{
    x.min(TOO_MANY)
}

// The axes, from the slowest to the fastest.
fn axes_of(
    n: usize,
    domain: [Side; 4],
    extents: [u64; 4],
    order: Order,
    window: [Side; 4],
) -> [Axis; 4]
    requires { (n ≤ 4) × Splits domain extents n }
    ensures { result ≡ axes_of order n domain extents window }
{
    let mut axes = [Axis::NONE; 4];
    for k in 0..n {
        let i = dimension_of(order, n, k);
        let cells = Keys::of(domain[i].range);
        let asked = Keys::of(window[i].range);
        axes[k] = Axis::of(cells, extents[i], asked);
    }
    axes
}

fn dimension_of(order: Order, n: usize, k: usize) -> usize
    requires { k < n }
    ensures { result ≡ dimension_of order n k }
{
    match order {
        Order::RowMajor => k,
        Order::ColumnMajor => n - 1 - k,
    }
}

// How many tiles are touched: as many as the axes' spans multiplied.
fn found_of(axes: [Axis; 4], n: usize) -> u64
    requires { (n ≤ 4) × Capped axes n }
    ensures { result ≡ capped (product (span_at axes) 0 n) }
{
    let mut found: u64 = 1;
    for k in 0..n {
        found = capped(found.saturating_mul(axes[k].span));
    }
    found
}

// Writes the tiles that axis k, and `more` after it, hold of a tile number of the axes before; answers the place to go
// on at.
fn fill(axes: [Axis; 4], k: usize, more: usize, tile: u64, at: usize, out: &mut [u32]) -> usize
    requires { Held axes k more tile }
    ensures { Filled out.old at (numbers_of axes k (more + 1) tile) out.new result }
{
    let a = axes[k];
    let start = tile * a.tiles + a.first;
    let end = start + a.span;
    if more == 0 {
        return run(start, end, at, out);
    }
    if more == 1 {
        return fill_rows(axes[k + 1], start, end, at, out);
    }
    let mut next = at;
    for t in start..end {
        if out.len() <= next {
            return next;
        }
        next = fill(axes, k + 1, more - 1, t, next, out);
    }
    next
}

// Writes the rows of the fastest axis, of each tile number of the axes before it from one to before another; answers the
// place to go on at. A row may be short, so that a call for each, with all axes, would cost more than its tiles.
fn fill_rows(row: Axis, start: u64, end: u64, at: usize, out: &mut [u32]) -> usize
    requires { (row.first + row.span ≤ row.tiles) × (end * row.tiles ≤ most_tiles) }
    ensures { Filled out.old at (join (row_of row.tiles row.first row.span) start (end - start)) out.new
        result }
{
    let mut next = at;
    for t in start..end {
        if out.len() <= next {
            return next;
        }
        let from = t * row.tiles + row.first;
        next = run(from, from + row.span, next, out);
    }
    next
}

// Writes the numbers from one to before another, as many as fit; answers the place to go on at. How many fit is worked
// out before, so that a tile written costs one test.
fn run(start: u64, end: u64, at: usize, out: &mut [u32]) -> usize
    requires { end ≤ 2 ^ 32 }
    ensures { Filled out.old at (join (λ t. t ∷ []) start (end - start)) out.new result }
{
    let room = out.len().saturating_sub(at) as u64;
    let stop = start + end.saturating_sub(start).min(room);
    let mut next = at;
    for t in start..stop {
        out[next] = t as u32;
        next += 1;
    }
    next
}
