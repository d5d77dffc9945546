// The schema name of a footer, and the cells of its tiles.
#![tactic(auto)]

ghost use Rattle.std.specs.Prelude.{◌≡◌, ◌+◌, ◌≤◌, ◌<◌, length, take, drop};
ghost use Rattle.footer.specs.Answer.{cells_of, schema_name, dense_schema_name, tile_cells, all_cells};

use description::Description;

// The schema name as that part of the lent footer; an empty part where the footer is refused.
pub fn schema_name(description: Description, file_size: u64, bytes: &[u8]) -> &[u8]
    ensures { result.now ≡ schema_name description file_size bytes.now }
{
    let checked = footer::check(description, file_size, bytes);
    name_of(bytes, checked.name_size)
}

// The same of a dense footer.
pub fn dense_schema_name(description: Description, file_size: u64, bytes: &[u8]) -> &[u8]
    ensures { result.now ≡ dense_schema_name description file_size bytes.now }
{
    let checked = footer::check_dense(description, file_size, bytes);
    name_of(bytes, checked.name_size)
}

// A name of so many bytes; an empty part where that is none.
fn name_of(bytes: &[u8], size: u64) -> &[u8]
    requires { 0 < size → 12 + size ≤ length bytes.now }
    ensures { result.now ≡ take size (drop 12 bytes.now) }
{
    if size == 0 {
        return &bytes[0..0];
    }
    let name = size as usize;
    let end = 12 + name;
    &bytes[12..end]
}

// The cells of tile i, for callers who have an accepted footer.
pub fn cells_at(tiles: u64, last_cells: u64, capacity: u64, i: u64) -> u64
    ensures { result ≡ cells_of tiles last_cells capacity i }
{
    if tiles <= i {
        return 0;
    }
    if i + 1 < tiles { capacity } else { last_cells }
}

// The cells of tile i.
pub fn tile_cells(description: Description, file_size: u64, bytes: &[u8], i: u64) -> u64
    ensures { result ≡ tile_cells description file_size bytes.now i }
{
    let checked = footer::check(description, file_size, bytes);
    cells_at(checked.tiles, checked.last_cells, description.capacity, i)
}

// The cells of all tiles.
pub fn total_cells(description: Description, file_size: u64, bytes: &[u8]) -> u64
    ensures { result ≡ all_cells description file_size bytes.now }
{
    let checked = footer::check(description, file_size, bytes);
    if checked.number != 0 {
        return 0;
    }
    (checked.tiles - 1) * description.capacity + checked.last_cells
}
