// Runs cases from standard input through the library and writes what each answers, one line of tab-parted numbers a
// case.
//
// A case is a row of u64 and then two byte strings: 0 the bytes of the whole case, 8 what to ask, 16 D, 24 to 48 the
// four kinds, 56 N, 64 C, 72, 80 and 88 further numbers, 96 the bytes of the first string.
#![tactic(auto)]

ghost use Rattle.std.specs.Prelude.{◌≤◌, ◌<◌, length};

use boxes::{Side, Window};
use description::{Description, Dimension, Kind};
use floats::Float;
use footer::Footer;
use ints::Int;
use lists::{Extent, TileOffsets, TileSizes};
use query::Answer;
use ranges::Range;
use rtree::Opened;
use std::io::Read;

fn main(rt: HostRuntime) {
    let mut space = input_buffer();
    run(&rt, &mut space);
}

// The most bytes that are read.
fn input_buffer() -> [u8; 655_360] {
    [0u8; 655_360]
}

// The cases on standard input, as many bytes of them as the buffer takes.
fn run(rt: &HostRuntime, space: &mut [u8]) {
    let n = read_full(&mut rt.stdin(), space);
    cases(rt, &space[0..n]);
}

// Reads until the buffer is full, the input ends or a read fails.
fn read_full(input: &mut impl Read, buf: &mut [u8]) -> usize
    ensures { result ≤ length buf.new }
{
    let mut done: usize = 0;
    while done < buf.len() {
        let Ok(n) = input.read(&mut buf[done..]) else {
            break;
        };
        if n == 0 {
            break;
        }
        done += n;
    }
    done
}

fn cases(rt: &impl Print, all: &[u8]) {
    let mut at: usize = 0;
    while at < all.len() {
        let rest = all.len() - at;
        let size = size_of(&all[at..], rest);
        let end = at + size;
        ask(rt, &all[at..end]);
        at = end;
    }
}

// The bytes of the case that starts here, and what is left where there is no whole case.
fn size_of(case: &[u8], rest: usize) -> usize
    requires { 0 < rest }
    ensures { (0 < result) × (result ≤ rest) }
{
    let size = order::u64_at(case, 0);
    if size < 1 || rest as u64 <= size {
        rest
    } else {
        size as usize
    }
}

fn ask(rt: &impl Print, case: &[u8]) {
    if case.len() < 104 {
        return;
    }
    let both = &case[104..];
    let first = order::u64_at(case, 96);
    if both.len() as u64 <= first {
        answer(rt, case, both, &both[0..0]);
        return;
    }
    let m = first as usize;
    answer(rt, case, &both[0..m], &both[m..]);
}

fn answer(rt: &impl Print, case: &[u8], a: &[u8], b: &[u8]) {
    let what = order::u64_at(case, 8);
    number(rt, what);
    match what {
        1 => footer_case(rt, case, a),
        2 => name_case(rt, case, a),
        3 => offsets_case(rt, case, a),
        4 => sizes_case(rt, case, a),
        5 => open_case(rt, case, a, b),
        6 => query_case(rt, case, a, b),
        7 => opened_case(rt, case, a, b),
        8 => var_offsets_case(rt, case, a),
        9 => batch_case(rt, case, a, b),
        10 => box_test_case(rt, case, a, b),
        11 => blocks_case(rt, case, a, b),
        _ => (),
    }
    let _ = rt.write_all(b"\n");
}

fn number(rt: &impl Print, x: u64) {
    let _ = print!(rt; "{x}\t");
}

fn numbers(rt: &impl Print, xs: &[u64]) {
    for x in xs {
        number(rt, *x);
    }
}

fn description(case: &[u8]) -> Description {
    Description {
        dimensions: order::u64_at(case, 16),
        kinds: [24, 32, 40, 48].map(|at: usize| Dimension {
            kind: Kind::try_from(order::u64_at(case, at)).unwrap_or(Kind::Int64),
        }),
        fields: order::u64_at(case, 56),
        capacity: order::u64_at(case, 64),
    }
}

// A footer's lists, in the order of its fields.
fn footer_lists(rt: &impl Print, f: Footer) {
    list(rt, f.file_sizes);
    list(rt, f.file_var_sizes);
    list(rt, f.file_validity_sizes);
    list(rt, f.tile_offsets);
    list(rt, f.var_offsets);
    list(rt, f.var_sizes);
    list(rt, f.validity);
    list(rt, f.mins);
    list(rt, f.maxes);
    list(rt, f.sums);
    list(rt, f.null_counts);
}

// Every number of a footer, and the cells of tile `i` and of the whole.
fn footer_case(rt: &impl Print, case: &[u8], bytes: &[u8]) {
    let d = description(case);
    let size = order::u64_at(case, 72);
    let i = order::u64_at(case, 80);
    let f = footer_fields::open(d, size, bytes);
    numbers(
        rt,
        &[
            f.number,
            f.place,
            f.version,
            f.name_size,
            f.dense,
            f.null_domain,
            f.tiles,
            f.last_cells,
            f.timestamps,
            f.deletes,
            f.rtree,
            f.fragment,
            f.conditions,
            f.length,
        ],
    );
    footer_lists(rt, f);
    number(rt, cells::tile_cells(d, size, bytes, i));
    number(rt, cells::total_cells(d, size, bytes));
}

// The first three places of a list, and the last.
fn list(rt: &impl Print, entries: [u64; 64]) {
    numbers(rt, &[entries[0], entries[1], entries[2], entries[63]]);
}

fn name_case(rt: &impl Print, case: &[u8], bytes: &[u8]) {
    let d = description(case);
    let name = cells::schema_name(d, order::u64_at(case, 72), bytes);
    number(rt, name.len() as u64);
    let _ = rt.write_all(name);
}

fn offsets_case(rt: &impl Print, case: &[u8], bytes: &[u8]) {
    let n = order::u64_at(case, 72);
    let size = order::u64_at(case, 80);
    let i = order::u64_at(case, 88);
    let r = TileOffsets::from(entries::open_offsets(bytes, n, size));
    offsets_answer(rt, r, extents::tile_extent(bytes, n, size, i));
}

fn var_offsets_case(rt: &impl Print, case: &[u8], bytes: &[u8]) {
    let n = order::u64_at(case, 72);
    let size = order::u64_at(case, 80);
    let i = order::u64_at(case, 88);
    let r = TileOffsets::from(entries::open_var_offsets(bytes, n, size));
    offsets_answer(rt, r, extents::var_tile_extent(bytes, n, size, i));
}

// What a list of offsets answers, and one of its tiles.
fn offsets_answer(rt: &impl Print, r: TileOffsets, e: Extent) {
    numbers(rt, &[r.number, r.place, r.tiles, e.offset, e.extent]);
}

fn sizes_case(rt: &impl Print, case: &[u8], bytes: &[u8]) {
    let r = TileSizes::from(entries::open_sizes(bytes, order::u64_at(case, 72)));
    numbers(rt, &[r.number, r.place, r.sum]);
}

fn open_case(rt: &impl Print, case: &[u8], bytes: &[u8], body: &[u8]) {
    let d = description(case);
    opened_numbers(rt, opening::open(d, order::u64_at(case, 72), bytes, body));
}

// The same body in blocks of a given size, with a work buffer of 64 bytes of which as many as the case says are lent.
fn blocks_case(rt: &impl Print, case: &[u8], bytes: &[u8], body: &[u8]) {
    let mut space = [7u8; 64];
    let work: &mut [u8] = &mut space;
    let room = order::u64_at(case, 88);
    if room <= work.len() as u64 {
        let m = room as usize;
        lend_work(rt, case, bytes, body, &mut work[0..m]);
    }
}

fn lend_work(rt: &impl Print, case: &[u8], bytes: &[u8], body: &[u8], work: &mut [u8]) {
    let d = description(case);
    let size = order::u64_at(case, 80) as usize;
    opened_numbers(
        rt,
        parts::open_in_blocks(d, order::u64_at(case, 72), bytes, body, size, work),
    );
}

fn opened_numbers(rt: &impl Print, r: Opened) {
    numbers(
        rt,
        &[r.number, r.place, r.which, r.tiles, r.fanout, r.levels],
    );
}

// A range by its kind and the patterns of its ends.
fn range(k: Kind, low: u64, high: u64) -> Range {
    let a = (low % 0x1_0000_0000) as u32;
    let z = (high % 0x1_0000_0000) as u32;
    match k {
        Kind::Int32 => Range::I32(i32::of(a), i32::of(z)),
        Kind::Int64 => Range::I64(i64::of(low), i64::of(high)),
        Kind::Float32 => Range::F32(f32::of(a), f32::of(z)),
        Kind::Float64 => Range::F64(f64::of(low), f64::of(high)),
        Kind::Uint64 => Range::U64(low, high),
    }
}

fn side(bytes: &[u8], at: usize) -> Side
    requires { at ≤ 128 }
{
    let kind = Kind::try_from(order::u64_at(bytes, at)).unwrap_or(Kind::Int64);
    let low = order::u64_at(bytes, at + 8);
    let high = order::u64_at(bytes, at + 16);
    Side {
        range: range(kind, low, high),
    }
}

// A window is its number of dimensions and four sides, each a kind and two patterns.
fn window(bytes: &[u8]) -> Window {
    Window {
        dimensions: order::u64_at(bytes, 0),
        sides: [
            side(bytes, 8),
            side(bytes, 32),
            side(bytes, 56),
            side(bytes, 80),
        ],
    }
}

// The numbers of the answer, and a buffer of eight places of which `room` are lent.
fn query_case(rt: &impl Print, case: &[u8], body: &[u8], asked: &[u8]) {
    let mut space = [7u32; 8];
    let out: &mut [u32] = &mut space;
    lend(rt, case, body, asked, out, room(case));
    places(rt, out);
}

// Thirty-two windows of 104 bytes each, asked at once: their answers, and a buffer of 64 places of which `room` are
// lent.
fn batch_case(rt: &impl Print, case: &[u8], body: &[u8], asked: &[u8]) {
    let windows = windows(asked);
    let mut space = [7u32; 64];
    let out: &mut [u32] = &mut space;
    let room = order::u64_at(case, 80);
    if room <= out.len() as u64 {
        let m = room as usize;
        lend_batch(rt, case, body, windows, &mut out[0..m]);
    }
    places(rt, out);
}

fn windows(asked: &[u8]) -> [Window; 32] {
    let mut windows = [window(asked); 32];
    for i in 0..32 {
        windows[i] = window_from(asked, 104 * i);
    }
    windows
}

fn window_from(asked: &[u8], at: usize) -> Window {
    if at <= asked.len() {
        return window(&asked[at..]);
    }
    window(asked)
}

fn lend_batch(rt: &impl Print, case: &[u8], body: &[u8], windows: [Window; 32], out: &mut [u32]) {
    let d = description(case);
    let n = order::u64_at(case, 72);
    let none = Answer {
        number: 0,
        place: 0,
        found: 0,
        looked: 0,
    };
    let answers = batch::query_32(d, n, body, windows, [none; 32], out);
    for answer in answers {
        answered(rt, answer);
    }
}

fn places(rt: &impl Print, out: &[u32]) {
    for place in out {
        number(rt, u64::from(*place));
    }
}

// One box and a window.
fn box_test_case(rt: &impl Print, case: &[u8], bytes: &[u8], asked: &[u8]) {
    let r = query::box_test(description(case), bytes, window(asked));
    numbers(
        rt,
        &[
            r.number,
            r.place,
            r.tested.meets as u64,
            r.tested.read as u64,
        ],
    );
}

// An opened tree, asked once. The second string is the window, of 104 bytes, and then the body.
fn opened_case(rt: &impl Print, case: &[u8], bytes: &[u8], both: &[u8]) {
    if both.len() < 104 {
        return;
    }
    let mut space = [7u32; 8];
    let out: &mut [u32] = &mut space;
    let w = window(both);
    open_and_lend(rt, case, bytes, &both[104..], w, out, room(case));
    places(rt, out);
}

fn room(case: &[u8]) -> usize {
    order::u64_at(case, 80).min(8) as usize
}

fn lend(rt: &impl Print, case: &[u8], body: &[u8], asked: &[u8], out: &mut [u32], room: usize) {
    let d = description(case);
    let w = window(asked);
    let n = order::u64_at(case, 72);
    if room <= out.len() {
        answered(rt, query::query(d, n, body, w, &mut out[0..room]));
    }
}

fn open_and_lend(
    rt: &impl Print,
    case: &[u8],
    bytes: &[u8],
    body: &[u8],
    w: Window,
    out: &mut [u32],
    room: usize,
) {
    let d = description(case);
    let size = order::u64_at(case, 72);
    if room <= out.len() {
        let r = opened::open_and_ask(d, size, bytes, body, w, &mut out[0..room]);
        answered(rt, r);
    }
}

fn answered(rt: &impl Print, r: Answer) {
    numbers(rt, &[r.number, r.place, r.found, r.looked]);
}
