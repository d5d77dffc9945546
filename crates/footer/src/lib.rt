// The footer of a fragment's metadata, checked. Its fields are read in `footer_fields`, its schema name and the cells
// of its tiles are answered in `cells`.
#![tactic(auto)]

ghost use Rattle.std.specs.Prelude.{◌≡◌, ◌+◌, ◌*◌, ◌≤◌, length, take, drop};
ghost use Rattle.answers.specs.Told.{number_of, told};
ghost use Rattle.answers.specs.Checks.{first};
ghost use Rattle.answers.specs.Refusals.{the_last_cells};
ghost use Rattle.description.specs.Limits.{most_tiles};
ghost use Rattle.description.specs.Description.{limits_refusal, bytes_of_box, sides_of};
ghost use Rattle.boxes.specs.Boxes.{ranges_refusal};
ghost use Rattle.footer.specs.Fields.{no_flag, flag_is, number_outside, file_offsets_refusal, only_if};
ghost use Rattle.footer.specs.Checks.{sparse, dense, entry_refusal};
ghost use Rattle.footer.specs.Answer.{entry_checked, checked_answer, dense_checked};
ghost use Rattle.footer.specs.Code.Places.{name_checks, fields_checks, checks_before_tiles, checks_from_tiles, BeforeTiles, FromTiles};

use answers::{Reason, Refusal, Refused};
use boxes::Side;
use description::Description;

// What differs between the entries that a footer is read by: what is said of the description after 1; the dense flag
// that is refused; the least and the most tiles; whether the last tile's cells are checked.
#[derive(Clone, Copy)]
pub struct Entry {
    pub further: Refusal,
    pub flag: u64,
    pub least: u64,
    pub most: u64,
    pub cells: bool,
}

impl Entry {
    // That of a sparse fragment.
    pub fn sparse(further: Refusal) -> Entry
        ensures { result ≡ sparse further most_tiles }
    {
        Entry {
            further,
            flag: 1,
            least: Description::LEAST_TILES,
            most: Description::MOST_TILES,
            cells: true,
        }
    }

    // That of a dense fragment, which has no tiles of its own.
    pub fn dense(further: Refusal) -> Entry
        ensures { result ≡ dense further }
    {
        Entry {
            further,
            flag: 0,
            least: 0,
            most: 0,
            cells: false,
        }
    }
}

// What opening a tree, the name and the cells need of a footer. `domain` is the start of the domain's box, 0 where
// refused.
#[derive(Clone, Copy)]
pub struct Checked {
    pub number: u64,
    pub place: u64,
    pub name_size: u64,
    pub domain: u64,
    pub tiles: u64,
    pub last_cells: u64,
}

// Every number of a footer. The lists have 0 past the entries that there are.
#[derive(Clone, Copy)]
pub struct Footer {
    pub number: u64,
    pub place: u64,
    pub version: u64,
    pub name_size: u64,
    pub dense: u64,
    pub null_domain: u64,
    pub domain: [Side; 4],
    pub tiles: u64,
    pub last_cells: u64,
    pub timestamps: u64,
    pub deletes: u64,
    pub file_sizes: [u64; 64],
    pub file_var_sizes: [u64; 64],
    pub file_validity_sizes: [u64; 64],
    pub rtree: u64,
    pub tile_offsets: [u64; 64],
    pub var_offsets: [u64; 64],
    pub var_sizes: [u64; 64],
    pub validity: [u64; 64],
    pub mins: [u64; 64],
    pub maxes: [u64; 64],
    pub sums: [u64; 64],
    pub null_counts: [u64; 64],
    pub fragment: u64,
    pub conditions: u64,
    pub length: u64,
}

// The footer checked, with what opening a tree, the name and the cells need of it.
pub fn check(description: Description, file_size: u64, bytes: &[u8]) -> Checked
    ensures { result ≡ checked_answer description file_size bytes.now }
{
    check_by(
        Entry::sparse(Refusal::from(description.check_retired())),
        description,
        file_size,
        bytes,
    )
}

// The same by the dense entry.
pub fn check_dense(description: Description, file_size: u64, bytes: &[u8]) -> Checked
    ensures { result ≡ dense_checked description file_size bytes.now }
{
    let retired = Refusal::from(description.check_retired());
    let floats = Refusal::from(description.check_floats());
    check_by(
        Entry::dense(retired.or(floats)),
        description,
        file_size,
        bytes,
    )
}

// The same by an entry, whatever it is.
pub fn check_by(entry: Entry, description: Description, file_size: u64, bytes: &[u8]) -> Checked
    ensures { result ≡ entry_checked entry description file_size bytes.now }
{
    let told = check_footer(entry, description, file_size, bytes);
    if told.number != 0 {
        return Checked {
            number: told.number,
            place: told.place,
            name_size: 0,
            domain: 0,
            tiles: 0,
            last_cells: 0,
        };
    }
    let name_size = order::u64_at(bytes, 4);
    let domain = 14 + name_size;
    let tiles = domain as usize + description.box_bytes();
    Checked {
        number: 0,
        place: 0,
        name_size,
        domain,
        tiles: order::u64_at(bytes, tiles),
        last_cells: order::u64_at(bytes, tiles + 8),
    }
}

// All checks in their order. What an entry says may have any number, so it is told as it is.
fn check_footer(entry: Entry, description: Description, file_size: u64, bytes: &[u8]) -> Refusal
    ensures { result ≡ entry_refusal entry description file_size bytes.now }
{
    let front = Refusal::from(description.check_limits()).or(entry.further);
    if front.number != 0 {
        return front;
    }
    Refusal::from(check_fields(entry, description, file_size, bytes))
}

// Those after the description.
fn check_fields(
    entry: Entry,
    description: Description,
    file_size: u64,
    bytes: &[u8],
) -> Result<(), Refused>
    requires { (limits_refusal description).number ≡ 0 }
    ensures { told result ≡ first (fields_checks entry description bytes.now file_size) }
{
    check_head(bytes)?;
    let n = bytes.len();
    let dense = 12 + order::u64_at(bytes, 4) as usize;
    let tiles = dense + 2 + description.box_bytes();
    let total = tiles + 50 + 88 * description.fields as usize;
    Reason::Bytes.when(n != total, n as u64)?;
    Reason::Bytes.when(file_size < total as u64, n as u64)?;
    // Said last, but asked first: in the other order the compiled loop over the offsets has a register less.
    let from = check_from_tiles(entry, description, file_size, bytes, tiles);
    check_before_tiles(entry, description, bytes, dense, tiles)?;
    from
}

// The two fields that the places of all others go by.
fn check_head(bytes: &[u8]) -> Result<(), Refused>
    ensures { told result ≡ first (name_checks bytes.now) }
{
    let n = bytes.len();
    Reason::Bytes.when(n < 12, n as u64)?;
    let unknown = description::outside(
        Description::LEAST_VERSION as u64,
        Description::MOST_VERSION as u64,
        order::u32_at(bytes, 0) as u64,
    );
    Reason::Version.when(unknown, 0)?;
    check_number(
        bytes,
        4,
        Description::LEAST_NAME,
        Description::MOST_NAME,
        Reason::NameSize,
    )
}

// Field by field in footer order: those before the tile number, by the starts of the dense flag and of that number.
fn check_before_tiles(
    entry: Entry,
    description: Description,
    bytes: &[u8],
    dense: usize,
    tiles: usize,
) -> Result<(), Refused>
    requires { BeforeTiles description bytes.now dense tiles }
    ensures { told result ≡ first (checks_before_tiles entry description bytes.now) }
{
    let null_domain = dense + 1;
    let domain = dense + 2;
    check_flag(bytes, dense)?;
    check_is(bytes, dense, entry.flag, Reason::Dense)?;
    check_flag(bytes, null_domain)?;
    check_is(bytes, null_domain, 1, Reason::NullDomain)?;
    check_domain(description, bytes, domain, tiles)
}

// The tile number and all after it, the length field last.
fn check_from_tiles(
    entry: Entry,
    description: Description,
    file_size: u64,
    bytes: &[u8],
    tiles: usize,
) -> Result<(), Refused>
    requires { FromTiles description bytes.now file_size tiles }
    ensures { told result ≡ first (checks_from_tiles entry description bytes.now file_size) }
{
    let n = description.fields as usize;
    let total = bytes.len();
    let length = total - 8;
    let limit = file_size - total as u64;
    check_number(bytes, tiles, entry.least, entry.most, Reason::Tiles)?;
    check_last_cells(entry.cells, bytes, tiles + 8, description.capacity)?;
    check_flag(bytes, tiles + 16)?;
    check_flag(bytes, tiles + 17)?;
    check_offsets(bytes, tiles + 18 + 24 * n, 8 * n + 3, limit)?;
    Reason::Bytes.when(order::u64_at(bytes, length) != length as u64, total as u64)
}

// A flag byte is 0 or 1.
#[tactic(auto, unfolding(crate::specs::Fields::no_flag, answers::specs::Told::number_of))]
fn check_flag(bytes: &[u8], at: usize) -> Result<(), Refused>
    ensures { told result ≡ no_flag bytes.now at }
{
    Reason::Flag.when(1 < order::byte_at(bytes, at), at as u64)
}

// A flag is not this one.
#[tactic(auto, unfolding(crate::specs::Fields::flag_is))]
fn check_is(bytes: &[u8], at: usize, flag: u64, reason: Reason) -> Result<(), Refused>
    ensures { told result ≡ flag_is bytes.now flag (number_of reason) at }
{
    reason.when(order::byte_at(bytes, at) == flag, at as u64)
}

// The last tile's cells, for an entry that has any, are 1 to the capacity.
#[tactic(auto, unfolding(answers::specs::Told::told, answers::specs::Told::number_of))]
fn check_last_cells(has: bool, bytes: &[u8], at: usize, capacity: u64) -> Result<(), Refused>
    ensures { told result ≡ only_if has (number_outside bytes.now 8 1 capacity the_last_cells at) }
{
    if has {
        check_number(bytes, at, 1, capacity, Reason::LastCells)
    } else {
        Ok(())
    }
}

// A u64 is neither below the least nor above the most.
#[tactic(auto, unfolding(crate::specs::Fields::number_outside))]
fn check_number(
    bytes: &[u8],
    at: usize,
    least: u64,
    most: u64,
    reason: Reason,
) -> Result<(), Refused>
    ensures { told result ≡ number_outside bytes.now 8 least most (number_of reason) at }
{
    let outside = description::outside(least, most, order::u64_at(bytes, at));
    reason.when(outside, at as u64)
}

// The ranges of the box from a place to another, counted from the first of the bytes.
fn check_domain(
    description: Description,
    bytes: &[u8],
    from: usize,
    to: usize,
) -> Result<(), Refused>
    requires { (from + bytes_of_box description ≡ to) × (to ≤ length bytes.now) }
    ensures { told result ≡ ranges_refusal description.kinds (sides_of description.dimensions) (take (bytes_of_box
        description) (drop from bytes.now)) from }
{
    let kinds = description.kinds;
    boxes::check_ranges(&bytes[from..to], kinds, description.dimensions).map_err(|e| e.moved(
        from as u64,
    ))
}

// So many offsets from a place on, each below the limit.
fn check_offsets(bytes: &[u8], at: usize, count: usize, limit: u64) -> Result<(), Refused>
    requires { at + 8 * count ≤ length bytes.now }
    ensures { told result ≡ file_offsets_refusal bytes.now limit count at }
{
    for i in 0..count {
        let place = at + 8 * i;
        let offset = order::u64_at(bytes, place);
        Reason::Offset.when(limit <= offset, place as u64)?;
    }
    Ok(())
}
