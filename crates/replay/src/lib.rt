// Replay a log: each record's query is asked again, and the answer held to the logged one.
#![tactic(auto)]

ghost use Rattle.std.specs.Prelude.{◌≡◌, ℕ, ◌+◌, ◌*◌, ◌≤◌, leb, length, take};
ghost use Rattle.decimal.specs.Decimal.{decimal};
ghost use Rattle.description.specs.Description.{sides_of};
ghost use Rattle.text.specs.Text.{lines};
ghost use Rattle.text.specs.Code.Places.{Wrote};
ghost use Rattle.replay.specs.Replay.{record_text, replay_text, replay_answer, replay_buffer, most_line, OneEach};
ghost use Rattle.replay.specs.Replay.{told_replay};
ghost use Rattle.replay.specs.Code.Reading.{newlines, SidesRead, logged_of};
ghost use Rattle.replay.specs.Code.Writing.{outcome_text, outcome_line, agreed, pair_text, verdict};

use answers::{Reason, Refused};
use boxes::{Side, Window};
use description::Description;

// A refusal, or how long the text is.
#[derive(Clone, Copy)]
pub struct Replayed {
    pub number: u64,
    pub place: u64,
    pub length: u64,
}

// As C and the definitions have it.
impl From<Result<u64, Refused>> for Replayed {
    ghost from_gives = { λ answer r. r ≡ told_replay answer };

    #[tactic(auto, unfolding(crate::specs::Replay::told_replay))]
    fn from(answer: Result<u64, Refused>) -> Replayed {
        match answer {
            Ok(length) => Replayed {
                number: 0,
                place: 0,
                length,
            },
            Err(e) => Replayed {
                number: e.reason.number(),
                place: e.place,
                length: 0,
            },
        }
    }
}

// No line of the text is longer: five numbers of at most 20 digits, `differs`, five tabs and a newline.
const MOST_LINE: usize = 113;

// The most bytes that a line of the log may have.
const MOST_BYTES: usize = 255;

// The text goes to the start of the buffer, if it has the room. The answer is how long it is.
pub fn replay(
    description: Description,
    tiles: u64,
    body: &[u8],
    log: &[u8],
    out: &mut [u8],
) -> Result<u64, Refused>
    ensures answer { told_replay result ≡ replay_answer description tiles body.now log.now (length
        out.old) }
    ensures buffer { out.new ≡ replay_buffer description tiles body.now log.now
        out.old }
    ensures room { most_line * length (lines log.now) ≤ length out.old → (told_replay result).number ≡ 0 }
    ensures records { (told_replay result).number ≡ 0 → OneEach description tiles body.now log.now
        (take (told_replay result).length out.new) }
{
    if !has_room(description, tiles, body, log, out.len()) {
        return Err(Reason::Room.at(0));
    }
    let length = write(description, tiles, body, log, out);
    Ok(length as u64)
}

// Is the text no longer than that? With so many bytes for each line it always is; with less it is measured.
fn has_room(description: Description, tiles: u64, body: &[u8], log: &[u8], room: usize) -> bool
    ensures { result ≡ leb (length (replay_text description tiles body.now log.now)) room }
{
    if count_lines(log) <= room / MOST_LINE {
        return true;
    }
    fits(description, tiles, body, log, room)
}

fn count_lines(log: &[u8]) -> usize
    ensures { result ≡ length (lines log.now) }
{
    let size = log.len();
    if size == 0 {
        return 0;
    }
    let ended = newlines(log);
    if log[size - 1] == b'\n' {
        ended
    } else {
        ended + 1
    }
}

// A loop with no early leave, which is compiled to whole blocks of bytes.
fn newlines(text: &[u8]) -> usize
    ensures { result ≡ newlines text.now }
{
    let mut count: usize = 0;
    for byte in text {
        count += (*byte == b'\n') as usize;
    }
    count
}

// Measures line by line, until what is left of the room is too short.
fn fits(description: Description, tiles: u64, body: &[u8], log: &[u8], room: usize) -> bool
    ensures { result ≡ leb (length (replay_text description tiles body.now log.now)) room }
{
    let mut left = room;
    let mut at: usize = 0;
    let mut i: usize = 0;
    while at < log.len() {
        let end = text::piece_end(log, at, b'\n');
        let outcome = outcome_of(description, tiles, body, &log[at..end]);
        let count = line_length(i as u64, outcome);
        if left < count {
            return false;
        }
        left -= count;
        i += 1;
        at = text::after(log, end);
    }
    true
}

// Writes line by line; answers how long the text is.
fn write(description: Description, tiles: u64, body: &[u8], log: &[u8], out: &mut [u8]) -> usize
    requires { length (replay_text description tiles body.now log.now) ≤ length out.old }
    ensures { Wrote 0 out.old 0 (replay_text description tiles body.now log.now)
        out.new result }
{
    let mut next: usize = 0;
    let mut at: usize = 0;
    let mut number: usize = 0;
    while at < log.len() {
        let end = text::piece_end(log, at, b'\n');
        let outcome = outcome_of(description, tiles, body, &log[at..end]);
        next = write_line(number as u64, outcome, out, next);
        number += 1;
        at = text::after(log, end);
    }
    next
}

// The two numbers of a query's answer.
#[derive(Clone, Copy, Debug, PartialEq, Eq)]
struct Pair {
    found: u64,
    looked: u64,
}

// A good record: the logged pair, and the pair found now.
#[derive(Clone, Copy)]
struct Compared {
    logged: Pair,
    now: Pair,
}

// The record is read and its query asked, with no room for tiles. None where it is bad.
fn outcome_of(description: Description, tiles: u64, body: &[u8], line: &[u8]) -> Option<Compared>
    ensures { (i : ℕ) → outcome_text i result ≡ record_text description tiles body.now i
        line.now }
{
    if MOST_BYTES < line.len() {
        return None;
    }
    let read = read_record(description, line)?;
    let mut none = [0u32; 1];
    let answer = query::query(description, tiles, body, read.window, &mut none[..0]);
    if answer.number != 0 {
        return None;
    }
    Some(Compared {
        logged: read.logged,
        now: Pair {
            found: answer.found,
            looked: answer.looked,
        },
    })
}

// What a line says.
#[derive(Clone, Copy)]
struct Logged {
    window: Window,
    logged: Pair,
}

// None where a number is not read, or another follows.
fn read_record(description: Description, line: &[u8]) -> Option<Logged>
    requires { length line.now ≤ 255 }
    ensures { result ≡ logged_of description line.now }
{
    let ends = read_sides(description, line)?;
    let first = text::piece_from(line, ends.next, b'\t');
    let middle = ends.next + first.len() + 1;
    let second = text::piece_from(line, middle, b'\t');
    if middle + second.len() != line.len() {
        return None;
    }
    let sides = ends.sides;
    let found = decimal::read_u64(first)?;
    let looked = decimal::read_u64(second)?;
    Some(Logged {
        window: Window {
            dimensions: description.dimensions,
            sides,
        },
        logged: Pair { found, looked },
    })
}

// The ends of each dimension, and where the numbers after them start.
#[derive(Clone, Copy)]
struct Sides {
    sides: [Side; 4],
    next: usize,
}

fn read_sides(description: Description, line: &[u8]) -> Option<Sides>
    requires { length line.now ≤ 255 }
    ensures { SidesRead description.kinds line.now (sides_of description.dimensions) result }
{
    let mut sides = boxes::no_box();
    let mut next: usize = 0;
    for i in 0..description::sides_of(description.dimensions) {
        let low = text::piece_from(line, next, b'\t');
        let middle = next + low.len() + 1;
        let high = text::piece_from(line, middle, b'\t');
        let range = range_text::read_range(description.kinds[i].kind, low, high)?;
        sides[i] = Side { range };
        next = middle + high.len() + 1;
    }
    Some(Sides { sides, next })
}

// The bytes of a record's line, its newline too.
fn line_length(i: u64, outcome: Option<Compared>) -> usize
    ensures { result ≡ length (outcome_line i outcome) }
{
    let number = decimal::digits(i);
    match outcome {
        None => number + 5,
        Some(compared) => {
            let verdict = verdict_length(compared.agrees());
            let pairs = pair_length(compared.logged) + pair_length(compared.now);
            number + 1 + verdict + pairs
        }
    }
}

fn verdict_length(same: bool) -> usize
    ensures { result ≡ length (verdict same) }
{
    if same { 5 } else { 8 }
}

// Two numbers and a byte after each.
fn pair_length(pair: Pair) -> usize
    ensures { (result ≡ length (decimal pair.found) + length (decimal pair.looked) + 2) × (result ≤ 42) }
{
    decimal::digits(pair.found) + decimal::digits(pair.looked) + 2
}

impl Compared {
    // Do both numbers agree?
    fn agrees(self) -> bool
        ensures { result ≡ agreed self }
    {
        self.logged == self.now
    }
}

// A record's line. This and the next two answer where the next text goes.
fn write_line(i: u64, outcome: Option<Compared>, out: &mut [u8], at: usize) -> usize
    requires { at + length (outcome_line i outcome) ≤ length out.old }
    ensures { Wrote 0 out.old at (outcome_line i outcome) out.new result }
{
    let first = at + text::write_field(i, b'\t', 0, out, at);
    match outcome {
        None => first + text::write(b"bad\n", 0, out, first),
        Some(compared) => {
            let second = write_verdict(compared.agrees(), out, first);
            let third = write_pair(compared.logged, b'\t', out, second);
            write_pair(compared.now, b'\n', out, third)
        }
    }
}

fn write_verdict(same: bool, out: &mut [u8], at: usize) -> usize
    requires { at + length (verdict same) ≤ length out.old }
    ensures { Wrote 0 out.old at (verdict same) out.new result }
{
    if same {
        return at + text::write(b"same\t", 0, out, at);
    }
    at + text::write(b"differs\t", 0, out, at)
}

fn write_pair(pair: Pair, end: u8, out: &mut [u8], at: usize) -> usize
    requires { at + length (pair_text pair end) ≤ length out.old }
    ensures { Wrote 0 out.old at (pair_text pair end) out.new result }
{
    let next = at + text::write_field(pair.found, b'\t', 0, out, at);
    next + text::write_field(pair.looked, end, 0, out, next)
}
