// The read plan: which bytes of a data file are read for a run of tiles.
#![tactic(auto)]

ghost use Rattle.std.specs.Prelude.{◌≡◌, ◌+◌, ◌-◌, ◌*◌, ◌/◌, ◌^◌, ◌<◌, ◌≤◌, false, [], ◌∷◌, length, take, nat_lt};
ghost use Rattle.std.proofs.lemmas.List.Edits.{sets};
ghost use Rattle.answers.specs.Told.{told};
ghost use Rattle.plan.specs.Plan.{how_many, words, tile_bytes, plan_refusal, plan_after, output_after};
ghost use Rattle.plan.specs.Plan.{told_plan, plan_answer, plan_output, var_plan_answer, var_plan_output, plan_at, output_at};
ghost use Rattle.plan.specs.Code.Marks.{marking, marked, MarksRun, Cleared, Unmarked, Skipped};
ghost use Rattle.plan.specs.Code.Progress.{opened, joined, Closed, Visited, Scanned};

use answers::{Reason, Refused};

// What is planned: how many ranges there are, how many different tiles the run names, how many of its entries name none,
// and how many bytes the ranges have.
#[derive(Clone, Copy, Debug, PartialEq, Eq)]
pub struct Planned {
    pub ranges: u64,
    pub tiles: u64,
    pub outside: u64,
    pub bytes: u64,
}

// As C and the definitions have it. Number 0: not refused; a refusal has 0 in all that is planned.
#[derive(Clone, Copy)]
pub struct ReadPlan {
    pub number: u64,
    pub place: u64,
    pub ranges: u64,
    pub tiles: u64,
    pub outside: u64,
    pub bytes: u64,
}

impl From<Result<Planned, Refused>> for ReadPlan {
    ghost from_gives = { λ answer r. r ≡ told_plan answer };

    #[tactic(auto, unfolding(crate::specs::Plan::told_plan))]
    fn from(answer: Result<Planned, Refused>) -> ReadPlan {
        match answer {
            Ok(plan) => ReadPlan {
                number: 0,
                place: 0,
                ranges: plan.ranges,
                tiles: plan.tiles,
                outside: plan.outside,
                bytes: plan.bytes,
            },
            Err(e) => ReadPlan {
                number: e.reason.number(),
                place: e.place,
                ranges: 0,
                tiles: 0,
                outside: 0,
                bytes: 0,
            },
        }
    }
}

// The read plan of tile offsets, which are checked first. `work` is to have a bit a tile; what it holds before doesn't
// matter, and what it holds afterwards is free.
pub fn read_plan(
    body: &[u8],
    tiles: u64,
    size: u64,
    gap: u64,
    run: &[u32],
    work: &mut [u8],
    out: &mut [u64],
) -> Result<Planned, Refused>
    ensures answer { told_plan result ≡ plan_answer tiles size body.now gap run.now
        (length work.old) }
    ensures buffer { out.new ≡ plan_output tiles size body.now gap run.now
        (length work.old) out.old }
{
    let list = entries::check_offsets(body, tiles, size);
    plan_after(list, body, tiles, size, gap, run, work, out)
}

// The same of var offsets.
pub fn var_read_plan(
    body: &[u8],
    tiles: u64,
    size: u64,
    gap: u64,
    run: &[u32],
    work: &mut [u8],
    out: &mut [u64],
) -> Result<Planned, Refused>
    ensures answer { told_plan result ≡ var_plan_answer tiles size body.now gap run.now
        (length work.old) }
    ensures buffer { out.new ≡ var_plan_output tiles size body.now gap run.now
        (length work.old) out.old }
{
    let list = entries::check_var_offsets(body, tiles, size);
    plan_after(list, body, tiles, size, gap, run, work, out)
}

// The same with no check of the list, for one that is known to be accepted, of either kind.
#[tactic(auto, unfolding(answers::specs::Told::told))]
pub fn read_plan_at(
    body: &[u8],
    tiles: u64,
    size: u64,
    gap: u64,
    run: &[u32],
    work: &mut [u8],
    out: &mut [u64],
) -> Result<Planned, Refused>
    ensures answer { told_plan result ≡ plan_at tiles size body.now gap run.now
        (length work.old) }
    ensures buffer { out.new ≡ output_at tiles size body.now gap run.now
        (length work.old) out.old }
{
    plan_after(Ok(()), body, tiles, size, gap, run, work, out)
}

// The plan after what the list is refused with, if it is. The tiles of the run are marked in the work buffer, so that
// they come rising and each once. The list, the number of tiles and the size stay apart: that a slice holds bytes is told
// of a parameter, and not of a field.
fn plan_after(
    list: Result<(), Refused>,
    body: &[u8],
    tiles: u64,
    size: u64,
    gap: u64,
    run: &[u32],
    work: &mut [u8],
    out: &mut [u64],
) -> Result<Planned, Refused>
    ensures answer { told_plan result ≡ plan_after (told list) tiles size body.now gap run.now
        (length work.old) }
    ensures buffer { out.new ≡ output_after (told list) tiles size body.now gap run.now
        (length work.old) out.old }
{
    check(list, tiles, work.len() as u64)?;
    clear(work, eighth(tiles) as usize);
    let inside = mark(run, tiles, work);
    let p = scan(body, tiles, size, gap, work, out);
    let written = close(out, p);
    Ok(Planned {
        ranges: written.ranges,
        tiles: p.tiles,
        outside: run.len() as u64 - inside,
        bytes: written.bytes,
    })
}

// After what the list is refused with, a work buffer that is too short.
fn check(list: Result<(), Refused>, tiles: u64, room: u64) -> Result<(), Refused>
    ensures { told result ≡ plan_refusal (told list) tiles room }
{
    list?;
    Reason::Work.when(room < eighth(tiles), 0)
}

// n / 8, rounded up.
fn eighth(n: u64) -> u64
    ensures { result ≡ (n + 7) / 8 }
{
    n.div_ceil(8)
}

fn clear(marks: &mut [u8], bytes: usize)
    requires { bytes ≤ length marks.old }
    ensures { Cleared bytes marks.new }
{
    marks[..bytes].fill(0);
}

// Marks each tile below n that the run names, and answers how many of its entries do.
fn mark(run: &[u32], n: u64, marks: &mut [u8]) -> u64
    requires { n ≤ 8 * length marks.old }
    ensures inside { result ≡ how_many (λ x. nat_lt x n) run.now }
    ensures marks { MarksRun n run.now marks.old marks.new }
{
    let mut inside = 0;
    for entry in run {
        let tile = *entry as u64;
        if tile < n {
            set_mark(marks, tile);
            inside += 1;
        }
    }
    inside
}

fn set_mark(marks: &mut [u8], i: u64)
    requires { i < 8 * length marks.old }
    ensures { marks.new ≡ marking marks.old i }
{
    marks[(i / 8) as usize] |= 1u8 << (i % 8);
}

// Bytes from a start to before an end.
#[derive(Clone, Copy)]
struct Range {
    start: u64,
    end: u64,
}

impl Range {
    // None where the end is not above the start.
    fn length(self) -> u64
        ensures { result ≡ self.end - self.start }
    {
        self.end.saturating_sub(self.start)
    }
}

// How many ranges are written, and how many bytes they have.
#[derive(Clone, Copy)]
struct Written {
    ranges: u64,
    bytes: u64,
}

// How many tiles were met, what is written, and the range that is begun, if one is.
#[derive(Clone, Copy)]
struct Progress {
    tiles: u64,
    written: Written,
    begun: Option<Range>,
}

// Goes through the marked tiles, rising, and leaves the last range open. The bits of `word` are the marks from tile i
// on; where none is left, the next eight bytes are taken, so that bytes with no mark are passed over whole.
fn scan(body: &[u8], tiles: u64, size: u64, gap: u64, marks: &[u8], out: &mut [u64]) -> Progress
    ensures { Scanned gap (marked marks.now) (tile_bytes tiles size body.now) tiles
        out.old result out.new }
{
    let bytes = eighth(tiles) as usize;
    let mut p = NOTHING;
    let mut i = 0;
    let mut at = 0;
    let mut word = 0;
    loop {
        if word == 0 {
            at = skip(marks, bytes, at);
            if bytes <= at {
                break p;
            }
            word = order::u64_at(marks, at);
            i = 8 * at as u64;
            at += 8;
        } else {
            let skipped = word.trailing_zeros();
            i += skipped as u64;
            if tiles <= i {
                break p;
            }
            p = visit(out, p, tile(body, tiles, size, i), gap);
            word = word >> skipped >> 1;
            i += 1;
        }
    }
}

// Passes over bytes that have no mark, 32 at a time for as long as there are so many.
fn skip(marks: &[u8], bytes: usize, at: usize) -> usize
    requires { (at ≤ bytes + 7) × (bytes + 64 < 2 ^ 64) }
    ensures { Skipped marks.now bytes at result }
{
    let end = answers::lesser(bytes, marks.len());
    let mut k = at;
    while k + 32 <= end && !holds_mark(marks, k) {
        k += 32;
    }
    k
}

// Whether one of 32 bytes has a mark.
fn holds_mark(marks: &[u8], at: usize) -> bool
    requires { at + 32 < 2 ^ 64 }
    ensures { result ≡ false → Unmarked marks.now at (at + 32) }
{
    order::u64_at(marks, at) != 0
        || order::u64_at(marks, at + 8) != 0
        || order::u64_at(marks, at + 16) != 0
        || order::u64_at(marks, at + 24) != 0
}

const NOTHING: Progress = Progress {
    tiles: 0,
    written: Written {
        ranges: 0,
        bytes: 0,
    },
    begun: None,
};

fn tile(body: &[u8], tiles: u64, size: u64, i: u64) -> Range
    ensures { result ≡ tile_bytes tiles size body.now i }
{
    let e = lists::extent_at(body, tiles, size, i);
    let start = e.offset;
    let end = start + e.extent;
    Range { start, end }
}

// One more tile: without bytes it takes no part; it belongs to the open range, or that is written and another begun.
fn visit(out: &mut [u64], p: Progress, t: Range, gap: u64) -> Progress
    requires { (p.tiles + 1 < 2 ^ 64) × (p.written.ranges + opened p.begun ≤ p.tiles) }
    ensures { Visited gap t p out.old result out.new }
{
    let tiles = p.tiles + 1;
    if t.end <= t.start {
        return Progress { tiles, ..p };
    }
    match joined(p.begun, t, gap) {
        Some(range) => Progress {
            tiles,
            written: p.written,
            begun: Some(range),
        },
        None => Progress {
            tiles,
            written: close(out, p),
            begun: Some(t),
        },
    }
}

// The open range with one more tile, where at most so many bytes lie between them.
fn joined(begun: Option<Range>, t: Range, gap: u64) -> Option<Range>
    ensures { result ≡ joined gap begun t }
{
    let Range { start, end } = begun?;
    if t.start.saturating_sub(end) <= gap {
        Some(Range { start, end: t.end })
    } else {
        None
    }
}

// Writes the open range, if there is one. The bytes of a list that isn't accepted may add up past 64 bits.
fn close(out: &mut [u64], p: Progress) -> Written
    requires { p.written.ranges + opened p.begun < 2 ^ 64 }
    ensures { Closed p out.old result out.new }
{
    let Written { ranges, bytes } = p.written;
    match p.begun {
        Some(range) => {
            put(out, ranges, range);
            Written {
                ranges: ranges + 1,
                bytes: bytes.wrapping_add(range.length()),
            }
        }
        None => p.written,
    }
}

// A range goes to its two places, if the buffer has both.
fn put(out: &mut [u64], ranges: u64, range: Range)
    ensures { out.new ≡ sets out.old (2 * ranges)
        (words (take (length out.old / 2 - ranges) (range ∷ []))) }
{
    let k = ranges as usize;
    if k < out.len() / 2 {
        let at = 2 * k;
        out[at] = range.start;
        out[at + 1] = range.length();
    }
}
