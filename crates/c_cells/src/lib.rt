// A footer's schema name and the cells of its tiles, as exported functions on numbers and slices.
// include/tussockbell.h declares them for C.
#![tactic(auto)]

ghost use Rattle.std.specs.Prelude.{◌≡◌, get_or, take, drop};
ghost use Rattle.footer.specs.Answer.{checked_answer, schema_name, cells_of, tile_cells, all_cells};
ghost use Rattle.c_arguments.specs.Described.{describe};
ghost use Rattle.c_answers.specs.Places.{name_places};

// Where the schema name stands in the lent footer.
#[unsafe(no_mangle)]
pub extern "C" fn tussockbell_schema_name(
    kinds: &[u8],
    fields: u64,
    capacity: u64,
    file_size: u64,
    footer: &[u8],
    answer: &mut [u64; 2],
)
    ensures places { answer.new ≡ name_places (describe kinds.now fields capacity)
        footer.now (checked_answer (describe kinds.now fields capacity) file_size
        footer.now) }
    ensures name { take (get_or answer.new 1 0) (drop (get_or answer.new 0 0)
        footer.now)
        ≡ schema_name (describe kinds.now fields capacity) file_size footer.now }
{
    let d = c_arguments::describe(kinds, fields, capacity);
    let r = footer::check(d, file_size, footer);
    *answer = c_answers::name_places(r);
}

// The cells of a tile.
#[unsafe(no_mangle)]
pub extern "C" fn tussockbell_cells(
    kinds: &[u8],
    fields: u64,
    capacity: u64,
    file_size: u64,
    footer: &[u8],
    tile: u64,
) -> u64
    ensures { result ≡ tile_cells
        (describe kinds.now fields capacity) file_size footer.now tile }
{
    let d = c_arguments::describe(kinds, fields, capacity);
    cells::tile_cells(d, file_size, footer, tile)
}

// The same with no footer, for a caller who has had it checked.
#[unsafe(no_mangle)]
pub extern "C" fn tussockbell_cells_at(tiles: u64, last_cells: u64, capacity: u64, tile: u64) -> u64
    ensures { result ≡ cells_of tiles last_cells capacity tile }
{
    cells::cells_at(tiles, last_cells, capacity, tile)
}

// The cells of all tiles.
#[unsafe(no_mangle)]
pub extern "C" fn tussockbell_total_cells(
    kinds: &[u8],
    fields: u64,
    capacity: u64,
    file_size: u64,
    footer: &[u8],
) -> u64
    ensures { result ≡ all_cells (describe kinds.now fields capacity) file_size footer.now }
{
    let d = c_arguments::describe(kinds, fields, capacity);
    cells::total_cells(d, file_size, footer)
}
