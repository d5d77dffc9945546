// Sums and null counts as exported functions on numbers and slices. include/tussockbell.h declares them for C.
#![tactic(auto)]

ghost use Rattle.std.specs.Prelude.{◌≡◌};
ghost use Rattle.tile_counts.specs.Counts.{sums_answer, sum_answer, null_counts_answer, null_count_answer};
ghost use Rattle.c_arguments.specs.Described.{describe};
ghost use Rattle.c_counts.specs.Places.{sums_places, counts_places};

use tile_metadata::TileValues;

// Checks sums.
#[unsafe(no_mangle)]
pub extern "C" fn tussockbell_sums(tiles: u64, body: &[u8], answer: &mut [u64; 3])
    ensures { answer.new ≡ sums_places (sums_answer tiles body.now) }
{
    let r = TileValues::from(tile_counts::open_sums(tiles, body));
    *answer = [r.number, r.place, r.tiles];
}

// A tile's sum, after the whole body is checked.
#[unsafe(no_mangle)]
pub extern "C" fn tussockbell_sum(tiles: u64, body: &[u8], tile: u64) -> u64
    ensures { result ≡ sum_answer tiles body.now tile }
{
    tile_counts::tile_sum(tiles, body, tile)
}

// Checks null counts with the footer.
#[unsafe(no_mangle)]
pub extern "C" fn tussockbell_null_counts(
    kinds: &[u8],
    fields: u64,
    capacity: u64,
    file_size: u64,
    footer: &[u8],
    body: &[u8],
    answer: &mut [u64; 4],
)
    ensures { answer.new ≡ counts_places (null_counts_answer
        (describe kinds.now fields capacity) file_size footer.now body.now) }
{
    let d = c_arguments::describe(kinds, fields, capacity);
    let r = tile_counts::open_null_counts(d, file_size, footer, body);
    *answer = [r.number, r.place, r.which, r.tiles];
}

// A tile's null count, after footer and body are checked.
#[unsafe(no_mangle)]
pub extern "C" fn tussockbell_null_count(
    kinds: &[u8],
    fields: u64,
    capacity: u64,
    file_size: u64,
    footer: &[u8],
    body: &[u8],
    tile: u64,
) -> u64
    ensures { result ≡ null_count_answer
        (describe kinds.now fields capacity) file_size footer.now body.now tile }
{
    let d = c_arguments::describe(kinds, fields, capacity);
    tile_counts::tile_null_count(d, file_size, footer, body, tile)
}
