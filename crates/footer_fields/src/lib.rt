// Every number of a footer that passes its checks.
#![tactic(auto)]

ghost use Rattle.std.specs.Prelude.{◌≡◌, ◌+◌, ◌*◌, ◌≤◌, length};
ghost use Rattle.description.specs.Limits.{most_fields};
ghost use Rattle.footer.specs.Answer.{entries, footer_answer, dense_footer_answer, refused_footer, accepted_footer};
ghost use Rattle.footer_fields.specs.Code.Places.{Whole, footer_of, ReadOf};

use boxes::Side;
use description::Description;
use footer::{Checked, Footer};

// The footer checked, with all of its numbers.
pub fn open(description: Description, file_size: u64, bytes: &[u8]) -> Footer
    ensures { result ≡ footer_answer description file_size bytes.now }
{
    fields_of(
        description,
        bytes,
        footer::check(description, file_size, bytes),
    )
}

// The same by the dense entry.
pub fn open_dense(description: Description, file_size: u64, bytes: &[u8]) -> Footer
    ensures { result ≡ dense_footer_answer description file_size bytes.now }
{
    fields_of(
        description,
        bytes,
        footer::check_dense(description, file_size, bytes),
    )
}

// All of its numbers by the small answer, whichever entry that is of.
fn fields_of(description: Description, bytes: &[u8], checked: Checked) -> Footer
    requires { checked.number ≡ 0 → Whole description bytes.now checked }
    ensures { result ≡ footer_of description bytes.now checked }
{
    if checked.number != 0 {
        return refused(checked.number, checked.place);
    }
    let from = checked.domain as usize;
    let to = from + description.box_bytes();
    let kinds = description.kinds;
    let domain = boxes::read_box(&bytes[from..to], kinds, description.dimensions);
    read(description, bytes, checked, domain)
}

// Every number of an accepted footer, by its small answer and its domain.
fn read(description: Description, bytes: &[u8], checked: Checked, domain: [Side; 4]) -> Footer
    requires { ReadOf description bytes.now checked domain }
    ensures { result ≡ accepted_footer description bytes.now }
{
    let n = description.fields as usize;
    let dense = checked.domain as usize - 2;
    let tiles = checked.domain as usize + description.box_bytes();
    let sizes = tiles + 18;
    let rtree = sizes + 24 * n;
    let offsets = rtree + 8;
    let fragment = offsets + 64 * n;
    Footer {
        number: 0,
        place: 0,
        version: order::u32_at(bytes, 0) as u64,
        name_size: checked.name_size,
        dense: order::byte_at(bytes, dense),
        null_domain: order::byte_at(bytes, dense + 1),
        domain,
        tiles: checked.tiles,
        last_cells: checked.last_cells,
        timestamps: order::byte_at(bytes, tiles + 16),
        deletes: order::byte_at(bytes, tiles + 17),
        file_sizes: list_at(bytes, sizes, 0, n),
        file_var_sizes: list_at(bytes, sizes, 1, n),
        file_validity_sizes: list_at(bytes, sizes, 2, n),
        rtree: order::u64_at(bytes, rtree),
        tile_offsets: list_at(bytes, offsets, 0, n),
        var_offsets: list_at(bytes, offsets, 1, n),
        var_sizes: list_at(bytes, offsets, 2, n),
        validity: list_at(bytes, offsets, 3, n),
        mins: list_at(bytes, offsets, 4, n),
        maxes: list_at(bytes, offsets, 5, n),
        sums: list_at(bytes, offsets, 6, n),
        null_counts: list_at(bytes, offsets, 7, n),
        fragment: order::u64_at(bytes, fragment),
        conditions: order::u64_at(bytes, fragment + 8),
        length: order::u64_at(bytes, fragment + 16),
    }
}

fn refused(number: u64, place: u64) -> Footer
    ensures { result ≡ refused_footer number place }
{
    let zeros = [0u64; 64];
    let domain = boxes::no_box();
    Footer {
        number,
        place,
        version: 0,
        name_size: 0,
        dense: 0,
        null_domain: 0,
        domain,
        tiles: 0,
        last_cells: 0,
        timestamps: 0,
        deletes: 0,
        file_sizes: zeros,
        file_var_sizes: zeros,
        file_validity_sizes: zeros,
        rtree: 0,
        tile_offsets: zeros,
        var_offsets: zeros,
        var_sizes: zeros,
        validity: zeros,
        mins: zeros,
        maxes: zeros,
        sums: zeros,
        null_counts: zeros,
        fragment: 0,
        conditions: 0,
        length: 0,
    }
}

// The n entries of the list that k others stand before, from a place on; and 0 in the places past them.
fn list_at(bytes: &[u8], from: usize, k: usize, n: usize) -> [u64; 64]
    requires { (from + k * (8 * n) + 8 * n ≤ length bytes.now) × (n ≤ most_fields) }
    ensures { result ≡ entries bytes.now n (from + k * (8 * n)) }
{
    let at = from + k * (8 * n);
    let mut list = [0u64; 64];
    for i in 0..n {
        list[i] = order::u64_at(bytes, at + 8 * i);
    }
    list
}
