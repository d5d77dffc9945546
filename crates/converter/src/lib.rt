// The converter: an old footer and body, and the same tree with its float32 ranges as float64. Everything is checked
// first, as opening checked it before float32 was retired; then the body is written from its start, level by level,
// each box from the old one.
#![tactic(auto)]

ghost use Rattle.std.specs.Prelude.{◌≡◌, ◌++◌, ◌+◌, ◌*◌, ◌≤◌, length, drop};
ghost use Rattle.std.proofs.lemmas.List.Edits.{sets};
ghost use Rattle.order.specs.Little.{bytes_of};
ghost use Rattle.description.specs.Kinds.{range_bytes};
ghost use Rattle.description.specs.Description.{sides_of, bytes_of_box};
ghost use Rattle.description.specs.Rules.{before};
ghost use Rattle.tree.specs.Shape.{height, levels};
ghost use Rattle.footer.specs.Fields.{tiles_of};
ghost use Rattle.rtree.specs.Body.{fanout_of};
ghost use Rattle.rtree.specs.Opening.{open_answer_by};
ghost use Rattle.written.specs.Body.{levels_down};
ghost use Rattle.widened.specs.Widened.{widened_kind, widened_pattern, widened_kinds, widened_description, widened_side};
ghost use Rattle.widened.specs.Widened.{widened_box, widened_at};
ghost use Rattle.widened.specs.Converting.{converted, convert_answer, convert_length, convert_buffer};
ghost use Rattle.widened.specs.Footers.{widened_footer, footer_converted, footer_buffer};
ghost use Rattle.converter.specs.Code.Levels.{boxes_from, Run, Filling, FooterFilling};

use answers::{Reason, Refusal};
use description::{Description, Dimension, Kind};
use floats::Float;
use footer::Entry;
use rtree::Opened;
use widened::Converted;

// The whole body goes to the start of the buffer, if it has the room.
pub fn convert(
    description: Description,
    file_size: u64,
    footer: &[u8],
    body: &[u8],
    out: &mut [u8],
) -> Converted
    ensures answer { result ≡ convert_answer description file_size footer.now body.now
        (length out.old) }
    ensures buffer { out.new ≡ convert_buffer description file_size footer.now
        body.now out.old }
{
    let told = converted_length(description, file_size, footer, body);
    if told.number != 0 {
        return told;
    }
    if (out.len() as u64) < told.length {
        return answer(Reason::Room.number(), 0, 0, 0);
    }
    put_body(out, description, footer, body);
    told
}

// How long the buffer has to be.
pub fn converted_length(
    description: Description,
    file_size: u64,
    footer: &[u8],
    body: &[u8],
) -> Converted
    ensures { result ≡ convert_length description file_size footer.now body.now }
{
    let told = open_before(description, file_size, footer, body);
    if told.number != 0 {
        return answer(told.number, told.place, told.which, 0);
    }
    let wide = widened(description).box_bytes();
    let shape = tree::shape_of(told.tiles as usize, told.fanout as usize, wide);
    answer(0, 0, 0, shape.bytes as u64)
}

// The footer with its domain widened goes to the start of the buffer, if it has the room.
pub fn convert_footer(
    description: Description,
    file_size: u64,
    footer: &[u8],
    out: &mut [u8],
) -> Converted
    ensures answer { result ≡ footer_converted description file_size footer.now
        (length out.old) }
    ensures buffer { out.new ≡ footer_buffer description file_size footer.now
        out.old }
{
    let none = Refusal::none();
    let told = footer::check_by(Entry::sparse(none), description, file_size, footer);
    if told.number != 0 {
        return answer(told.number, told.place, 0, 0);
    }
    let old = description.box_bytes();
    let wide = widened(description).box_bytes();
    let whole = footer.len() - old + wide;
    if out.len() < whole {
        return answer(Reason::Room.number(), 0, 0, 0);
    }
    put_footer(out, description, told.domain as usize, old, wide, footer);
    answer(0, 0, 0, whole as u64)
}

// What opening said just before float32 was retired: nothing more of a description than its limits.
fn open_before(description: Description, file_size: u64, footer: &[u8], body: &[u8]) -> Opened
    ensures { result ≡ open_answer_by before description file_size footer.now body.now }
{
    opening::open_by(Refusal::none(), description, file_size, footer, body)
}

fn answer(number: u64, place: u64, which: u64, length: u64) -> Converted
    ensures { result ≡ record { number = number; place = place; which = which; length = length } }
{
    Converted {
        number,
        place,
        which,
        length,
    }
}

// The fanout and the level number, and then the levels. The footer is lent for its n, by which alone the contract goes.
fn put_body(out: &mut [u8], description: Description, footer: &[u8], body: &[u8])
    requires { Filling description (tiles_of description footer.now) (bytes_of_box description)
        (bytes_of_box (widened_description description)) body.now out.old }
    ensures { out.new ≡ converted description footer.now body.now
        ++ drop (length (converted description footer.now body.now)) out.old }
{
    let old = description.box_bytes();
    let wide = widened(description).box_bytes();
    let depth = order::u32_at(body, 4);
    order::put_u32(out, 0, order::u32_at(body, 0));
    order::put_u32(out, 4, depth);
    put_levels(out, description, footer, old, wide, depth as usize, body);
}

// Each level from the root's on: where it starts in the old body, and where in the buffer. Its count is the stored one.
fn put_levels(
    out: &mut [u8],
    description: Description,
    footer: &[u8],
    old: usize,
    wide: usize,
    depth: usize,
    body: &[u8],
)
    requires filling { Filling description (tiles_of description footer.now) old wide body.now out.old }
    requires depth_value { depth ≡ levels (fanout_of body.now) (tiles_of description footer.now) }
    ensures { out.new ≡ sets out.old 8
        (levels_down (fanout_of body.now) (tiles_of description footer.now)
        (widened_at description (tiles_of description footer.now) body.now)
        (height (fanout_of body.now) (tiles_of description footer.now))) }
{
    let mut from: usize = 8;
    let mut at: usize = 8;
    for l in 0..depth {
        let count = order::u64_at(body, from) as usize;
        put_level(out, at, description, old, wide, body, from, count);
        from += 8 + count * old;
        at += 8 + count * wide;
    }
}

// A level: its count, and its boxes.
fn put_level(
    out: &mut [u8],
    at: usize,
    description: Description,
    old: usize,
    wide: usize,
    body: &[u8],
    from: usize,
    count: usize,
)
    requires { Run description old wide body.now (from + 8) out.old (at + 8) count }
    ensures { out.new ≡ sets out.old at
        (bytes_of 8 count ++ boxes_from description body.now (from + 8) count) }
{
    order::put_u64(out, at, count as u64);
    put_boxes(out, at + 8, description, old, wide, body, from + 8, count);
}

// The bytes before the domain, the widened domain, the bytes after it but the length field, and that field anew.
fn put_footer(
    out: &mut [u8],
    description: Description,
    domain: usize,
    old: usize,
    wide: usize,
    footer: &[u8],
)
    requires { FooterFilling description domain old wide footer.now out.old }
    ensures { out.new ≡ widened_footer description footer.now
        ++ drop (length (widened_footer description footer.now)) out.old }
{
    let tiles = domain + old;
    let end = footer.len() - 8;
    let to = domain + wide;
    let field = to + (end - tiles);
    order::copy(out, 0, &footer[0..domain]);
    put_box(out, domain, description, &footer[domain..tiles]);
    order::copy(out, to, &footer[tiles..end]);
    order::put_u64(out, field, field as u64);
}

// The description of what is written.
pub fn widened(description: Description) -> Description
    ensures { result ≡ widened_description description }
{
    let old = description.kinds;
    let kinds = widened_kinds(old);
    Description {
        dimensions: description.dimensions,
        kinds: kinds,
        fields: description.fields,
        capacity: description.capacity,
    }
}

fn widened_kinds(kinds: [Dimension; 4]) -> [Dimension; 4]
    ensures { result ≡ widened_kinds kinds }
{
    kinds.map(widened_dimension)
}

fn widened_dimension(d: Dimension) -> Dimension
    ensures { result ≡ record { kind = widened_kind d.kind } }
{
    let kind = d.kind;
    Dimension {
        kind: widened_kind(kind),
    }
}

fn widened_kind(kind: Kind) -> Kind
    ensures { result ≡ widened_kind kind }
{
    match kind {
        Kind::Int32 => Kind::Int32,
        Kind::Int64 => Kind::Int64,
        Kind::Float32 => Kind::Float64,
        Kind::Float64 => Kind::Float64,
        Kind::Uint64 => Kind::Uint64,
    }
}

// A run of boxes, from a place of the body to a place of the buffer.
fn put_boxes(
    out: &mut [u8],
    at: usize,
    description: Description,
    old: usize,
    wide: usize,
    body: &[u8],
    from: usize,
    count: usize,
)
    requires { Run description old wide body.now from out.old at count }
    ensures { out.new ≡ sets out.old at
        (boxes_from description body.now from count) }
{
    for k in 0..count {
        let here = from + k * old;
        put_box(out, at + k * wide, description, &body[here..here + old]);
    }
}

// A box, side by side.
fn put_box(out: &mut [u8], at: usize, description: Description, bytes: &[u8])
    requires bytes_len { length bytes.now ≡ bytes_of_box description }
    requires description_in_bounds { at + bytes_of_box (widened_description description) ≤ length out.old }
    ensures { out.new ≡ sets out.old at
        (widened_box description.kinds (sides_of description.dimensions) bytes.now) }
{
    let kinds = description.kinds;
    let n = description::sides_of(description.dimensions);
    let mut from: usize = 0;
    let mut to = at;
    for i in 0..n {
        let kind = kinds[i].kind;
        put_side(out, to, kind, bytes, from);
        from += kind.range_bytes();
        to += widened_kind(kind).range_bytes();
    }
}

// A side: both ends of a float32 range as float64, any other range as it is. What is read and what is written are parts
// of known length, so that the tests of those lengths are none in the compiled code.
fn put_side(out: &mut [u8], at: usize, kind: Kind, bytes: &[u8], from: usize)
    requires kind_in_bounds { from + range_bytes kind ≤ length bytes.now }
    requires kind_in_bounds_2 { at + range_bytes (widened_kind kind) ≤ length out.old }
    ensures { out.new ≡ sets out.old at (widened_side kind bytes.now from) }
{
    match kind {
        Kind::Float32 => {
            put_widened(&mut out[at..at + 16], &bytes[from..from + 8]);
        }
        Kind::Int32 => {
            put_eight(&mut out[at..at + 8], &bytes[from..from + 8]);
        }
        Kind::Int64 | Kind::Float64 | Kind::Uint64 => {
            put_sixteen(&mut out[at..at + 16], &bytes[from..from + 16]);
        }
    }
}

fn put_widened(out: &mut [u8], bytes: &[u8])
    requires { length out.old ≡ 16 }
    ensures { out.new ≡ widened_side Kind.Float32 bytes.now 0 }
{
    let ends = order::pair_at::<u32>(bytes, 0);
    order::put_u64(out, 0, widen(ends.low));
    order::put_u64(out, 8, widen(ends.high));
}

// As one number: of two parts that may overlap, for all that it knows, the compiler copies byte by byte.
fn put_eight(out: &mut [u8], bytes: &[u8])
    requires out_len { length out.old ≡ 8 }
    requires bytes_len { length bytes.now ≡ 8 }
    ensures { out.new ≡ bytes.now }
{
    order::put_u64(out, 0, order::u64_at(bytes, 0));
}

// The same of two numbers.
fn put_sixteen(out: &mut [u8], bytes: &[u8])
    requires out_len { length out.old ≡ 16 }
    requires bytes_len { length bytes.now ≡ 16 }
    ensures { out.new ≡ bytes.now }
{
    order::put_u64(out, 0, order::u64_at(bytes, 0));
    order::put_u64(out, 8, order::u64_at(bytes, 8));
}

// The float64 pattern of a float32 pattern's value.
pub fn widen(p: u32) -> u64
    ensures { result ≡ widened_pattern p }
{
    if f32::nan_pattern(p) {
        return 0x7ff8_0000_0000_0000;
    }
    let x = f32::from_bits(p);
    let y = x as f64;
    f64::to_bits(y)
}
