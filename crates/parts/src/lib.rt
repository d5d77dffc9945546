// A tree body that arrives in parts: from the state of a start on, block takes its bytes as they come, and finish tells
// what they came to.
#![tactic(auto)]

ghost use Rattle.std.specs.Prelude.{◌≡◌, ℕ, true, Some, ◌-◌, ◌+◌, ◌≤◌, ◌<◌, eqb, cond, length, take, drop};
ghost use Rattle.answers.specs.Refusals.{refusal};
ghost use Rattle.answers.specs.Checks.{otherwise, each};
ghost use Rattle.answers.specs.Told.{number_of, told};
ghost use Rattle.description.specs.Description.{bytes_of_box};
ghost use Rattle.tree.specs.Shape.{most_box_bytes, shape_of};
ghost use Rattle.parts_state.specs.Parts.{front_shown, which_of, parts_answer};
ghost use Rattle.parts_state.specs.Took.{Carries, Answers};
ghost use Rattle.parts_state.specs.Code.State.{item_bytes};
ghost use Rattle.parts.specs.Code.Cursor.{with_cursor, refused, keeping, fronted, counted, moved, lowered, passed};
ghost use Rattle.parts.specs.Code.Runs.{child_check, run_check};
ghost use Rattle.parts.specs.Code.Steps.{InRange, RunOf, Gathered, held_of, inner_in};
ghost use Rattle.parts.specs.Code.Steps.{SameRoom, Stored, Takes, TakesSome, TakesWhole, TakesNumber, TakesRun, Ends};

use answers::{Reason, Refusal, Refused};
use description::Description;
use parts_state::{Cursor, Parts};
use rtree::Opened;

// More than any work buffer needs.
const MOST_WORK: usize = 1_099_511_627_776;

// The boxes of an inner level that are checked before they are copied: few, so that the copying of some goes on while
// the next are checked.
const RUN: usize = 64;

// Takes one block, of any length. Bytes past the stated length are not read.
pub fn block(parts: Parts, work: &mut [u8], bytes: &[u8]) -> Parts
    ensures { Carries parts work.old bytes.now result work.new }
{
    let c = parts.cursor;
    if c.number != 0 {
        return parts;
    }
    let room = room_left(parts.stated, c.done, c.kept);
    let all = answers::lesser(bytes.len(), room as usize);
    let mut held = parts.held;
    let r = take(parts, c, &mut held, work, &bytes[..all]);
    if r.number == 0 && all < bytes.len() {
        let over = refuse(r, Reason::Bytes.at(parts.stated), 1);
        return with_cursor(parts, over, held);
    }
    with_cursor(parts, r, held)
}

// What all blocks came to.
pub fn finish(parts: Parts, work: &[u8]) -> Opened
    ensures { Answers parts work.now result }
{
    let c = parts.cursor;
    if c.number != 0 {
        return rtree::refused_in(c.which, c.number, c.place);
    }
    if c.fanout == 0 {
        return finish_front(parts, work.len());
    }
    let room = room_left(parts.stated, c.done, c.kept);
    if 0 < room {
        return rtree::refused_in(1, Reason::Bytes.number(), parts.stated - room);
    }
    if c.box_number != 0 {
        return rtree::refused_in(1, c.box_number, c.box_place);
    }
    Opened {
        number: 0,
        place: 0,
        which: 0,
        tiles: parts.tiles,
        fanout: c.fanout as u64,
        levels: c.levels as u64,
    }
}

// A whole body, taken in blocks of a given size; of one byte where that is 0.
pub fn open_in_blocks(
    description: Description,
    file_size: u64,
    footer: &[u8],
    body: &[u8],
    size: usize,
    work: &mut [u8],
) -> Opened
    ensures { result ≡ parts_answer description file_size footer.now (length body.now)
        (length work.old) body.now }
{
    let mut s = parts_state::start(description, file_size, footer, body.len() as u64);
    for bytes in body.chunks(size.max(1)) {
        s = block(s, work, bytes);
    }
    finish(s, work)
}

// Fewer than eight bytes came: the fanout shows what it shows.
fn finish_front(parts: Parts, room: usize) -> Opened
    ensures { Ends parts room result }
{
    let held = parts.held;
    let fanout = order::u32_at(&held, 0) as usize;
    let c = parts.cursor;
    let kept = c.kept;
    let box_bytes = parts.description.box_bytes();
    match check_front(parts.tiles, box_bytes, parts.stated, room, kept, fanout, 0) {
        Ok(()) => rtree::refused_in(1, Reason::Bytes.number(), kept as u64),
        Err(e) => rtree::refused_in(which_of(e.reason), e.reason.number(), e.place),
    }
}

// The work buffer is neither footer nor body: 21 says the first.
#[tactic(auto, unfolding(answers::specs::Told::number_of))]
fn which_of(reason: Reason) -> u64
    ensures { result ≡ which_of (number_of reason) }
{
    if reason == Reason::Work { 0 } else { 1 }
}

fn with_cursor(parts: Parts, cursor: Cursor, held: [u8; 64]) -> Parts
    ensures { result ≡ with_cursor parts held cursor }
{
    Parts {
        cursor,
        held,
        ..parts
    }
}

// Refused for good.
fn refuse(cursor: Cursor, e: Refused, which: u64) -> Cursor
    ensures { result ≡ refused cursor which (number_of e.reason) e.place }
{
    Cursor {
        number: e.reason.number(),
        place: e.place,
        which,
        ..cursor
    }
}

// With so many bytes held of what comes next.
fn keep(cursor: Cursor, kept: usize) -> Cursor
    ensures { result ≡ keeping cursor kept }
{
    Cursor { kept, ..cursor }
}

// Past the fanout and L, at the root's count.
fn fronted(cursor: Cursor, fanout: usize, levels: usize, level: usize) -> Cursor
    ensures { result ≡ fronted cursor fanout levels level }
{
    Cursor {
        fanout,
        levels,
        level,
        counted: 0,
        count: 0,
        index: 0,
        own: 0,
        parents: 0,
        done: 8,
        box_number: 0,
        box_place: 0,
        ..cursor
    }
}

// Past a level's count, at its first box.
fn counted(cursor: Cursor, count: usize, done: u64) -> Cursor
    ensures { result ≡ counted cursor count done }
{
    Cursor {
        counted: 1,
        count,
        index: 0,
        done,
        ..cursor
    }
}

// Past some boxes of a level, at box `index` of it.
fn moved(cursor: Cursor, index: usize, done: u64, fault: Refusal) -> Cursor
    ensures { result ≡ moved cursor index done fault }
{
    Cursor {
        index,
        done,
        box_number: fault.number,
        box_place: fault.place,
        ..cursor
    }
}

// Past a level's last box, at the count of the level below, whose boxes go to `own` of the work buffer.
fn lowered(cursor: Cursor, own: usize) -> Cursor
    requires { 0 < cursor.level }
    ensures { result ≡ lowered cursor own }
{
    Cursor {
        level: cursor.level - 1,
        counted: 0,
        count: 0,
        index: 0,
        parents: cursor.own,
        own,
        ..cursor
    }
}

// The bytes that are still to come.
fn room_left(stated: u64, done: u64, kept: usize) -> u64
    ensures { result ≡ stated - (done + kept) }
{
    stated.saturating_sub(done).saturating_sub(kept as u64)
}

// Bytes within the stated length, number by number and row by row. A state that is not the last call's may be out of
// range, or stay where it is, or pass by more than is there: then no more is done.
fn take(parts: Parts, cursor: Cursor, held: &mut [u8], work: &mut [u8], bytes: &[u8]) -> Cursor
    requires number_value { cursor.number ≡ 0 }
    requires held_len { length held.old ≡ 64 }
    ensures { SameRoom held.old work.old held.new work.new
        × Takes (with_cursor parts held.old cursor) work.old bytes.now
        (with_cursor parts held.new result) work.new }
{
    let stated = parts.stated;
    let box_bytes = parts.description.box_bytes();
    let mut c = cursor;
    let mut rest = bytes;
    while !rest.is_empty() {
        if !in_range(stated, box_bytes, c, rest.len()) {
            return c;
        }
        let before = room_left(stated, c.done, c.kept);
        c = step(parts, box_bytes, c, held, work, rest);
        if c.number != 0 {
            return c;
        }
        let taken = before.saturating_sub(room_left(stated, c.done, c.kept));
        if taken == 0 || (rest.len() as u64) < taken {
            return c;
        }
        rest = &rest[taken as usize..];
    }
    c
}

// Whether a step over so many bytes is safe; from a state that the last call left it is.
fn in_range(stated: u64, box_bytes: usize, c: Cursor, left: usize) -> bool
    ensures { (result ≡ true → InRange stated box_bytes c left) × (InRange stated box_bytes c left → result ≡ true) }
{
    c.count as u64 <= Description::MOST_TILES
        && c.index <= c.count
        && c.fanout <= Description::MOST_FANOUT as usize
        && c.own <= MOST_WORK
        && c.parents <= MOST_WORK
        && c.kept < item_bytes(box_bytes, c.counted)
        && left as u64 <= room_left(stated, c.done, c.kept)
}

// The bytes of what comes next: the fanout and L together, a count, or a box.
fn item_bytes(box_bytes: usize, counted: usize) -> usize
    ensures { result ≡ item_bytes box_bytes counted }
{
    if counted == 0 { 8 } else { box_bytes }
}

// Takes at least one byte: as much as is there of what comes next, and of boxes as many of the level as are there. What
// is held in part, or there in part, is taken from the held bytes once it is whole. One call takes either, so that it is
// compiled in place: a call of its own would copy `parts` each time.
fn step(
    parts: Parts,
    box_bytes: usize,
    cursor: Cursor,
    held: &mut [u8],
    work: &mut [u8],
    bytes: &[u8],
) -> Cursor
    requires box_bytes_value { box_bytes ≡ bytes_of_box parts.description }
    requires in_range { InRange parts.stated box_bytes cursor (length bytes.now) }
    requires bytes_nonzero { 0 < length bytes.now }
    requires number_value { cursor.number ≡ 0 }
    requires held_len { length held.old ≡ 64 }
    ensures { SameRoom held.old work.old held.new work.new
        × TakesSome (with_cursor parts held.old cursor) work.old bytes.now
        (with_cursor parts held.new result) work.new }
{
    let item = item_bytes(box_bytes, cursor.counted);
    let have = gather(held, cursor.kept, bytes, item);
    match have {
        Some(kept) if kept < item => keep(cursor, kept),
        _ => {
            let from = whole_of(held, bytes, have, item);
            take_item(parts, box_bytes, keep(cursor, 0), work, from)
        }
    }
}

// The number that comes next, or as many boxes of the level as are there, from bytes that have what comes next whole.
fn take_item(
    parts: Parts,
    box_bytes: usize,
    cursor: Cursor,
    work: &mut [u8],
    bytes: &[u8],
) -> Cursor
    requires box_bytes_value { box_bytes ≡ bytes_of_box parts.description }
    requires in_range { InRange parts.stated box_bytes cursor (length bytes.now) }
    requires whole { item_bytes box_bytes cursor.counted ≤ length bytes.now }
    requires number_value { cursor.number ≡ 0 }
    requires kept_value { cursor.kept ≡ 0 }
    ensures room { length work.new ≡ length work.old }
    ensures took { TakesWhole parts cursor work.old bytes.now (item_bytes box_bytes cursor.counted) result work.new }
{
    if cursor.counted == 0 {
        return take_number(parts, box_bytes, cursor, work.len(), &bytes[..8]);
    }
    if cursor.count <= cursor.index {
        return cursor;
    }
    let boxes = answers::lesser(cursor.count - cursor.index, bytes.len() / box_bytes);
    let whole = boxes * box_bytes;
    take_boxes(parts, box_bytes, cursor, work, &bytes[..whole], boxes)
}

// Holds what is there of what comes next, after what is held of it already, and tells how many bytes of it are held
// then. Nothing is held where it stands whole in the block.
fn gather(held: &mut [u8], kept: usize, bytes: &[u8], item: usize) -> Option<usize>
    requires kept_lt_item { kept < item }
    requires item_in_bounds { item ≤ length held.old }
    requires bytes_nonzero { 0 < length bytes.now }
    ensures gathered { Gathered held.old kept bytes.now item (held_of result) held.new }
    ensures some { (have : ℕ) → result ≡ Some have → 0 < have }
{
    if kept == 0 && item <= bytes.len() {
        return None;
    }
    let more = answers::lesser(item - kept, bytes.len());
    order::copy(held, kept, &bytes[..more]);
    Some(kept + more)
}

// The bytes from which what comes next is taken: those that are held of it, or the block's.
fn whole_of<'a>(held: &'a [u8], bytes: &'a [u8], have: Option<usize>, item: usize) -> &'a [u8]
    requires room { item ≤ length held.now }
    requires some { (k : ℕ) → have ≡ Some k → 0 < k }
    ensures { result.now ≡ cond (eqb (held_of have) 0) bytes.now (take item held.now) }
{
    match have {
        None => bytes,
        Some(_) => &held[..item],
    }
}

// The fanout and L, or a count.
fn take_number(parts: Parts, box_bytes: usize, cursor: Cursor, room: usize, bytes: &[u8]) -> Cursor
    requires box_bytes_value { box_bytes ≡ bytes_of_box parts.description }
    requires in_range { InRange parts.stated box_bytes cursor (length bytes.now) }
    requires bytes_len { length bytes.now ≡ 8 }
    requires counted_value { cursor.counted ≡ 0 }
    ensures { TakesNumber parts room cursor bytes.now result }
{
    if cursor.fanout == 0 {
        return take_front(parts, box_bytes, cursor, room, bytes);
    }
    take_count(parts, box_bytes, cursor, room, bytes)
}

// The fanout and L.
fn take_front(parts: Parts, box_bytes: usize, cursor: Cursor, room: usize, bytes: &[u8]) -> Cursor
    requires box_bytes_value { box_bytes ≡ bytes_of_box parts.description }
    requires bytes_len { length bytes.now ≡ 8 }
    requires fanout_value { cursor.fanout ≡ 0 }
    ensures { TakesNumber parts room cursor bytes.now result }
{
    let fanout = order::u32_at(bytes, 0) as usize;
    let levels = order::u32_at(bytes, 4) as usize;
    let checked = check_front(
        parts.tiles,
        box_bytes,
        parts.stated,
        room,
        8,
        fanout,
        levels,
    );
    match checked {
        Ok(()) => fronted(cursor, fanout, levels, levels.saturating_sub(1)),
        Err(e) => refuse(cursor, e, which_of(e.reason)),
    }
}

// The shape before the counts, and the work buffer's room, as far as so many bytes show them.
#[tactic(auto, unfolding(parts_state::specs::Parts::front_shown, answers::specs::Checks::first, answers::specs::Told::number_of, answers::specs::Told::told))]
fn check_front(
    tiles: u64,
    box_bytes: usize,
    stated: u64,
    room: usize,
    have: usize,
    fanout: usize,
    levels: usize,
) -> Result<(), Refused>
    requires { box_bytes ≤ most_box_bytes }
    ensures { told result ≡ front_shown stated room have fanout levels (shape_of fanout tiles box_bytes).levels
        (shape_of fanout tiles box_bytes).bytes (inner_in fanout tiles box_bytes) }
{
    let shape = tree::shape_of(tiles as usize, fanout, box_bytes);
    let inner = box_bytes * shape.boxes.saturating_sub(tiles as usize);
    let no_fanout = Description::fanout_outside(fanout as u64);
    Reason::Bytes.when(stated < 8, stated)?;
    Reason::Fanout.when(4 <= have && no_fanout, 0)?;
    Reason::Levels.when(8 <= have && levels != shape.levels, 4)?;
    Reason::Bytes.when(4 <= have && stated != shape.bytes as u64, stated)?;
    Reason::Work.when(4 <= have && room < inner, 0)
}

// A level's count.
fn take_count(parts: Parts, box_bytes: usize, cursor: Cursor, room: usize, bytes: &[u8]) -> Cursor
    requires box_bytes_value { box_bytes ≡ bytes_of_box parts.description }
    requires in_range { InRange parts.stated box_bytes cursor (length bytes.now) }
    requires bytes_len { length bytes.now ≡ 8 }
    requires counted_value { cursor.counted ≡ 0 }
    requires fanout_nonzero { 0 < cursor.fanout }
    ensures { TakesNumber parts room cursor bytes.now result }
{
    let level = cursor.level;
    if 24 < level {
        return cursor;
    }
    let shape = tree::shape_of(parts.tiles as usize, cursor.fanout, box_bytes);
    let table = shape.table;
    let count = tree::count_in(&table, level);
    if order::u64_at(bytes, 0) != count as u64 {
        return refuse(cursor, Reason::Levels.at(cursor.done), 1);
    }
    counted(cursor, count, cursor.done + 8)
}

// So many boxes of a level; of an inner one, run by run.
fn take_boxes(
    parts: Parts,
    box_bytes: usize,
    cursor: Cursor,
    work: &mut [u8],
    bytes: &[u8],
    boxes: usize,
) -> Cursor
    requires run_of { RunOf parts box_bytes cursor bytes.now boxes }
    requires boxes_nonzero { 0 < boxes }
    ensures { TakesRun parts cursor work.old bytes.now boxes result work.new }
{
    let most = if cursor.level == 0 { boxes } else { RUN };
    let mut c = cursor;
    let mut i: usize = 0;
    // the last run may have fewer
    while i < boxes {
        let more = answers::lesser(most, boxes - i);
        let from = i * box_bytes;
        let to = from + more * box_bytes;
        c = take_run(parts, box_bytes, c, work, &bytes[from..to], more);
        i += more;
    }
    c
}

// A run of them: each against its parent, and then into the work buffer unless they are leaves.
fn take_run(
    parts: Parts,
    box_bytes: usize,
    cursor: Cursor,
    work: &mut [u8],
    bytes: &[u8],
    boxes: usize,
) -> Cursor
    requires run_of { RunOf parts box_bytes cursor bytes.now boxes }
    requires boxes_nonzero { 0 < boxes }
    ensures { TakesRun parts cursor work.old bytes.now boxes result work.new }
{
    let fault = check_boxes(parts, box_bytes, cursor, work, bytes, boxes);
    let index = cursor.index;
    let to = cursor.own + index * box_bytes;
    store(work, cursor.level, to, bytes);
    let len = bytes.len();
    let c = moved(cursor, index + boxes, cursor.done + len as u64, fault);
    pass(c, to + len)
}

// Past a level's last box.
fn pass(cursor: Cursor, own: usize) -> Cursor
    ensures { result ≡ passed cursor own }
{
    if cursor.index < cursor.count {
        return cursor;
    }
    if cursor.level == 0 {
        return cursor;
    }
    lowered(cursor, own)
}

// The first fault of a box so far, in numbers as the state has them.
fn check_boxes(
    parts: Parts,
    box_bytes: usize,
    cursor: Cursor,
    work: &[u8],
    bytes: &[u8],
    boxes: usize,
) -> Refusal
    requires { RunOf parts box_bytes cursor bytes.now boxes }
    ensures { 0 < cursor.fanout → result ≡ otherwise (refusal cursor.box_number cursor.box_place)
        (run_check parts cursor work.now bytes.now boxes) }
{
    if cursor.box_number != 0 {
        return Refusal::new(cursor.box_number, cursor.box_place);
    }
    let d = parts.description;
    if cursor.done == 16 {
        let domain = parts.domain;
        let kinds = d.kinds;
        let outer = &domain[..box_bytes];
        let outside = Reason::OutsideDomain;
        let told = Refusal::from(rows::check_row(bytes, kinds, d.dimensions, outer, outside));
        return told.moved(16);
    }
    if cursor.fanout == 0 {
        return Refusal::none();
    }
    let fault = Refusal::from(check_rows(parts, box_bytes, cursor, work, bytes, boxes));
    fault.moved(cursor.done)
}

// So many boxes of a level, row by row: each row, or what is there of it, inside its parent, which stands at `place` of
// the work buffer.
fn check_rows(
    parts: Parts,
    box_bytes: usize,
    cursor: Cursor,
    work: &[u8],
    bytes: &[u8],
    boxes: usize,
) -> Result<(), Refused>
    requires run_of { RunOf parts box_bytes cursor bytes.now boxes }
    requires fanout_nonzero { 0 < cursor.fanout }
    ensures { (told result ≡ each (child_check parts.description cursor.fanout cursor.parents cursor.index
        bytes.now work.now) 0 boxes) × ((told result).place ≤ length bytes.now) }
{
    let d = parts.description;
    let kinds = d.kinds;
    let fanout = cursor.fanout;
    let parents = cursor.parents;
    let index = cursor.index;
    let parent = index / fanout;
    let mut place = parents + parent * box_bytes;
    let mut row = fanout - (index - parent * fanout);
    let mut i: usize = 0;
    // of the first row and of the last one only a part may be there
    while i < boxes {
        let more = answers::lesser(row, boxes - i);
        let from = i * box_bytes;
        let here = &bytes[from..from + more * box_bytes];
        let outer = part(work, place, box_bytes);
        let told = rows::check_row(here, kinds, d.dimensions, outer, Reason::OutsideParent);
        told.map_err(|e| e.moved(from as u64))?;
        i += more;
        place += box_bytes;
        row = fanout;
    }
    Ok(())
}

// So many bytes from a place on, as far as they exist.
fn part(bytes: &[u8], from: usize, len: usize) -> &[u8]
    ensures { result.now ≡ take len (drop from bytes.now) }
{
    let rest = &bytes[from.min(bytes.len())..];
    &rest[..len.min(rest.len())]
}

// Boxes of an inner level go to their place in the work buffer, if it has the room.
fn store(work: &mut [u8], level: usize, to: usize, bytes: &[u8])
    ensures { Stored work.old level to bytes.now work.new }
{
    if 0 < level {
        order::copy(work, to, bytes);
    }
}
