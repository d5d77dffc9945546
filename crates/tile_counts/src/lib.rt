// The sums of a field's tiles, which are raw numbers, and their null counts, with the footer.
#![tactic(auto)]

ghost use Rattle.std.specs.Prelude.{◌≡◌, true, false, ℕ, ◌+◌, ◌*◌, ◌≤◌, ◌<◌, length};
ghost use Rattle.answers.specs.Told.{told};
ghost use Rattle.footer.specs.Answer.{cells_of};
ghost use Rattle.lists.specs.Lists.{entry, list_refusal};
ghost use Rattle.tile_metadata.specs.Bodies.{told_values};
ghost use Rattle.tile_counts.specs.Counts.{counts_refusal, sums_answer, sum_of, sum_answer, null_counts_answer};
ghost use Rattle.tile_counts.specs.Counts.{null_count_answer};

use answers::{Reason, Refused};
use description::Description;
use tile_metadata::TwoBodies;

// The sums of a field.
pub fn open_sums(tiles: u64, body: &[u8]) -> Result<u64, Refused>
    ensures { told_values result ≡ sums_answer tiles body.now }
{
    lists::check_list(body, tiles, 8)?;
    Ok(tiles)
}

// The null counts of a field, with the footer.
pub fn open_null_counts(
    description: Description,
    file_size: u64,
    footer: &[u8],
    body: &[u8],
) -> TwoBodies
    ensures { result ≡ null_counts_answer description file_size footer.now body.now }
{
    let checked = footer::check(description, file_size, footer);
    if checked.number != 0 {
        return TwoBodies {
            number: checked.number,
            place: checked.place,
            which: 0,
            tiles: 0,
        };
    }
    let capacity = description.capacity;
    let counts = check_counts(checked.tiles, checked.last_cells, capacity, body);
    TwoBodies::told(checked.tiles, Ok(()), counts)
}

// Tile i's sum, after the whole body is checked: 0 of a refused one.
pub fn tile_sum(tiles: u64, body: &[u8], i: u64) -> u64
    ensures { result ≡ sum_answer tiles body.now i }
{
    open_sums(tiles, body).map_or(0, |n| sum_at(n, body, i))
}

// Tile i's null count, after footer and body are checked.
pub fn tile_null_count(
    description: Description,
    file_size: u64,
    footer: &[u8],
    body: &[u8],
    i: u64,
) -> u64
    ensures { result ≡ null_count_answer description file_size footer.now body.now i }
{
    let counts = open_null_counts(description, file_size, footer, body);
    sum_at(counts.tiles, body, i)
}

// Tile i's sum or null count with no check of the body, for one that is known to be accepted.
pub fn sum_at(tiles: u64, body: &[u8], i: u64) -> u64
    ensures { result ≡ sum_of tiles body.now i }
{
    tile_metadata::eight_at(tiles, body, i)
}

// The list of null counts, each at most its tile's cells. One pass accepts them; the first that is above is looked for
// where it doesn't.
fn check_counts(tiles: u64, last_cells: u64, capacity: u64, body: &[u8]) -> Result<(), Refused>
    ensures { told result ≡ counts_refusal tiles last_cells capacity body.now }
{
    lists::check_list(body, tiles, 8)?;
    if all_within(tiles as usize, last_cells, capacity, body) {
        Ok(())
    } else {
        first_above(tiles, last_cells, capacity, body)
    }
}

// Whether every count is at most its tile's cells: those of full tiles, and then the last one.
fn all_within(n: usize, last_cells: u64, capacity: u64, body: &[u8]) -> bool
    requires le_n { 1 ≤ n }
    requires n_in_bounds { 8 + 8 * n ≤ length body.now }
    ensures { result ≡ true → (i : ℕ) → i < n
        → entry body.now i ≤ cells_of n last_cells capacity i }
{
    let last = n - 1;
    all_hold_by_eights(last, |i| word_at(body, i) <= capacity) && word_at(body, last) <= last_cells
}

// Count i, which is there. A public function would test that it is, at each turn of a loop.
fn word_at(body: &[u8], i: usize) -> u64
    requires { 16 + 8 * i ≤ length body.now }
    ensures { result ≡ entry body.now i }
{
    let at = 8 + 8 * i;
    let end = at + 8;
    order::u64_at(&body[at..end], 0)
}

// The first count that is above its tile's cells, of a list that is laid out.
fn first_above(tiles: u64, last_cells: u64, capacity: u64, body: &[u8]) -> Result<(), Refused>
    requires { (list_refusal tiles 8 body.now).number ≡ 0 }
    ensures { told result ≡ counts_refusal tiles last_cells capacity body.now }
{
    for i in 0..tiles {
        let cells = cells::cells_at(tiles, last_cells, capacity, i);
        if cells < tile_metadata::eight_at(tiles, body, i) {
            return Err(Reason::NullCount.at(8 + 8 * i));
        }
    }
    Ok(())
}

// Whether a test holds of each of the first n tiles, eight at a time, which the compiler writes out. What a test asks is told
// by whoever calls, and a public function asks nothing: so each crate that goes over tiles has a pass of its own.
fn all_hold_by_eights<F: Fn(usize) -> bool>(n: usize, test: F) -> bool
    requires { (i : ℕ) → i < n → F.pre test i }
    ensures holds { result ≡ true → (i : ℕ) → i < n → F.post test i true }
    ensures fails { result ≡ false → (i : ℕ) × (i < n) × F.post test i false }
{
    for block in 0..n / 8 {
        let from = 8 * block;
        if !all_between(from, from + 8, &test) {
            return false;
        }
    }
    all_between(n / 8 * 8, n, test)
}

// Whether a test holds of each tile from one on and before another. It goes through all of them, so that the compiler
// takes several at once.
fn all_between<F: Fn(usize) -> bool>(from: usize, to: usize, test: F) -> bool
    requires { (i : ℕ) → from ≤ i → i < to → F.pre test i }
    ensures holds { result ≡ true → (i : ℕ) → from ≤ i → i < to → F.post test i true }
    ensures fails { result ≡ false → (i : ℕ) × (from ≤ i) × (i < to) × F.post test i false }
{
    let mut all = true;
    for i in from..to {
        all &= test(i);
    }
    all
}
