// Only committed fragments: the folders of a listing that count.
#![tactic(auto)]

ghost use Rattle.std.specs.Prelude.{◌≡◌, ◌-◌, ◌≤◌, ◌<◌, MatchOption, MatchResult, false, length, take};
ghost use Rattle.answers.specs.Laid.{laid};
ghost use Rattle.answers.specs.Told.{said};
ghost use Rattle.text.specs.Text.{lines};
ghost use Rattle.commits.specs.Records.{kind_number, is_uuid_byte, is_uuid, is_record};
ghost use Rattle.commits.specs.Committed.{line_in, bears, names, listed, lines_listed, committed_lines};
ghost use Rattle.commits.specs.Committed.{listing_refusal, committed_answer, told_committed};
ghost use Rattle.commits.specs.Alike.{AlikeListings};
ghost use Rattle.commits.specs.Code.Index.{kind_code, number_read, name_read, ReadRecord, chain_of, last_in};
ghost use Rattle.commits.specs.Code.Index.{Table, Chains, Index, ReadListing};

use answers::{Reason, Refused};

const MOST_LINES: usize = 1024;

const MOST_BYTES: usize = 255;

const MOST_TIME: u64 = 0x7fff_ffff_ffff_ffff;

const MOST_UUID: usize = 64;

const LEAST_VERSION: u64 = 16;

const MOST_VERSION: u64 = 21;

// So many bytes of a name are hashed at most.
const HASHED: usize = 32;

// The answer: a refusal, or how many lines are found.
#[derive(Clone, Copy)]
pub struct Committed {
    pub number: u64,
    pub place: u64,
    pub found: u64,
}

// As C and the definitions have it.
impl From<Result<u64, Refused>> for Committed {
    ghost from_gives = { λ answer c. c ≡ told_committed answer };

    #[tactic(auto, unfolding(crate::specs::Committed::told_committed))]
    fn from(answer: Result<u64, Refused>) -> Committed {
        match answer {
            Ok(found) => Committed {
                number: 0,
                place: 0,
                found,
            },
            Err(e) => Committed {
                number: e.reason.number(),
                place: e.place,
                found: 0,
            },
        }
    }
}

// The line numbers, from 0, of the folders that count and are no later than `time`; the buffer's first places hold the
// first of them, as many as fit. The answer is how many there are.
pub fn find_committed(listing: &[u8], time: u64, out: &mut [u32]) -> Result<u64, Refused>
    ensures answer { told_committed result ≡ committed_answer listing.now time }
    ensures buffer { out.new ≡ laid (committed_lines listing.now time) out.old }
    ensures alike { AlikeListings listing.now time (told_committed result).found out.new }
{
    let mut rows = [NO_ROW; 1024];
    let mut next = [0usize; 1024];
    let mut heads = [0usize; 1024];
    let count = index(listing, &mut rows, &mut next, &mut heads)?;
    let found = write(listing, time, count, &rows, &next, &heads, out);
    Ok(found as u64)
}

// A line as it is kept: where its name starts and ends, its kind, t2, and its chain.
#[derive(Clone, Copy)]
struct Row {
    start: usize,
    end: usize,
    kind: Kind,
    time: u64,
    chain: usize,
}

const NO_ROW: Row = Row {
    start: 0,
    end: 0,
    kind: Kind::Folder,
    time: 0,
    chain: 0,
};

// Line by line: each is read, looked for among the earlier ones, and kept. `heads` has the last line of each chain,
// counted from 1, and `next` the line before a line in its chain: a walk along a chain reads no other bytes. The answer
// is how many lines there are.
fn index(
    text: &[u8],
    rows: &mut [Row; 1024],
    next: &mut [usize; 1024],
    heads: &mut [usize; 1024],
) -> Result<usize, Refused>
    requires { Index text.now 0 rows.old next.old heads.old }
    ensures { MatchResult result (λ n. ReadListing text.now n rows.new next.new heads.new)
        (λ e. said e ≡ listing_refusal (lines text.now)) }
{
    let mut at: usize = 0;
    let mut n: usize = 0;
    while at < text.len() {
        let place = n as u64;
        if n == MOST_LINES {
            return Err(Reason::BadLine.at(place));
        }
        let end = text::piece_end(text, at, b'\n');
        let Some(record) = read_record(&text[at..end]) else {
            return Err(Reason::BadLine.at(place));
        };
        let start = at + record.name;
        let name = &text[start..end];
        let chain = chain_of(name);
        let head = heads[chain];
        if named(text, rows, next, n, head, record.kind, name) {
            return Err(Reason::Repeated.at(place));
        }
        next[n] = head;
        heads[chain] = n + 1;
        rows[n] = Row {
            start,
            end,
            kind: record.kind,
            time: record.time,
            chain,
        };
        n += 1;
        at = text::after(text, end);
    }
    Ok(n)
}

// Does one of the first n lines, of that kind, have that name? Only the lines of its chain are looked at.
fn named(
    text: &[u8],
    rows: &[Row; 1024],
    next: &[usize; 1024],
    n: usize,
    head: usize,
    kind: Kind,
    name: &[u8],
) -> bool
    requires { (Table text.now n rows.now) × (Chains text.now n next.now)
        × (head ≡ last_in (lines text.now) (chain_of name.now) n) }
    ensures { result ≡ names (kind_code kind) (take n (lines text.now)) name.now }
{
    let mut at = head;
    while at != 0 {
        let i = at - 1;
        if bears(text, rows, n, i, kind, name) {
            return true;
        }
        at = next[i];
    }
    false
}

// Has line i, one of the first n, that kind and that name?
fn bears(text: &[u8], rows: &[Row; 1024], n: usize, i: usize, kind: Kind, name: &[u8]) -> bool
    requires { (Table text.now n rows.now) × (i < n) }
    ensures { result ≡ bears (kind_code kind) name.now (line_in (lines text.now) i) }
{
    let row = rows[i];
    row.kind == kind && text::same(&text[row.start..row.end], name)
}

// The line numbers of the folders that count, in order, as many as fit; answers how many there are.
fn write(
    text: &[u8],
    time: u64,
    n: usize,
    rows: &[Row; 1024],
    next: &[usize; 1024],
    heads: &[usize; 1024],
    out: &mut [u32],
) -> usize
    requires { (Index text.now n rows.now next.now heads.now) × (n ≡ length (lines text.now)) }
    ensures found { result ≡ length (lines_listed time (lines text.now)) }
    ensures buffer { out.new ≡ laid (lines_listed time (lines text.now)) out.old }
{
    let mut found: usize = 0;
    for i in 0..n {
        if wanted(text, time, n, rows, next, heads, i) {
            answers::keep(out, found, i as u32);
            found += 1;
        }
    }
    found
}

// Is line i a folder that counts, no later than `time`?
fn wanted(
    text: &[u8],
    time: u64,
    n: usize,
    rows: &[Row; 1024],
    next: &[usize; 1024],
    heads: &[usize; 1024],
    i: usize,
) -> bool
    requires { (Index text.now n rows.now next.now heads.now) × (n ≡ length (lines text.now)) × (i < n) }
    ensures { result ≡ listed time (lines text.now) (line_in (lines text.now) i) }
{
    let row = rows[i];
    if row.kind != Kind::Folder {
        return false;
    }
    if time < row.time {
        return false;
    }
    let name = &text[row.start..row.end];
    let head = heads[row.chain];
    let wrt = named(text, rows, next, n, head, Kind::Wrt, name);
    let con = named(text, rows, next, n, head, Kind::Con, name);
    let ign = named(text, rows, next, n, head, Kind::Ign, name);
    wrt | (con & !ign)
}

// The chain that a name is in, by a hash of its last bytes, where the uuid is.
fn chain_of(name: &[u8]) -> usize
    ensures { (result ≡ chain_of name.now) × (result < 1024) }
{
    let last = &name[name.len().saturating_sub(HASHED)..];
    let mut hash: usize = 0;
    for b in last {
        hash = (31 * hash + *b as usize) % 0x1_0000_0000;
    }
    hash % 1024
}

#[derive(Clone, Copy, PartialEq, Eq)]
enum Kind {
    Folder,
    Wrt,
    Con,
    Ign,
}

// A line as a record: its kind, where its name starts, and t2.
#[derive(Clone, Copy)]
struct Record {
    kind: Kind,
    name: usize,
    time: u64,
}

fn read_record(line: &[u8]) -> Option<Record>
    ensures { MatchOption result (is_record line.now ≡ false) (ReadRecord line.now) }
{
    let size = line.len();
    if MOST_BYTES < size {
        return None;
    }
    let first = text::piece_end(line, 0, b'\t');
    let start = first + 1;
    let end = text::piece_end(line, start, b'\t');
    if end != size {
        return None;
    }
    let kind = read_kind(&line[..first])?;
    let time = read_name(&line[start..end])?;
    Some(Record {
        kind,
        name: start,
        time,
    })
}

fn read_kind(text: &[u8]) -> Option<Kind>
    ensures { number_read result ≡ kind_number text.now }
{
    if text::same(text, b"folder") {
        return Some(Kind::Folder);
    }
    if text::same(text, b"wrt") {
        return Some(Kind::Wrt);
    }
    if text::same(text, b"con") {
        return Some(Kind::Con);
    }
    if text::same(text, b"ign") {
        return Some(Kind::Ign);
    }
    None
}

// The t2 of a name. An uuid has no underscore, so a name is six parts, of which the first two are empty.
fn read_name(name: &[u8]) -> Option<u64>
    requires { length name.now ≤ 255 }
    ensures { result ≡ name_read name.now }
{
    let end_0 = text::piece_end(name, 0, b'_');
    let at_1 = end_0 + 1;
    let end_1 = text::piece_end(name, at_1, b'_');
    let at_2 = end_1 + 1;
    let end_2 = text::piece_end(name, at_2, b'_');
    let at_3 = end_2 + 1;
    let end_3 = text::piece_end(name, at_3, b'_');
    let at_4 = end_3 + 1;
    let end_4 = text::piece_end(name, at_4, b'_');
    let at_5 = end_4 + 1;
    let end_5 = text::piece_end(name, at_5, b'_');
    if end_5 != name.len() {
        return None;
    }
    let first = decimal::read_at_most(&name[at_2..end_2], MOST_TIME)?;
    let last = decimal::read_at_most(&name[at_3..end_3], MOST_TIME)?;
    let version = decimal::read_at_most(&name[at_5..end_5], MOST_VERSION)?;
    let uuid = is_uuid(&name[at_4..end_4]);
    let fits = (first <= last) & (uuid & (LEAST_VERSION <= version));
    let good = (end_0 == 0) & ((end_1 == at_1) & fits);
    good.then_some(last)
}

fn is_uuid(text: &[u8]) -> bool
    ensures { result ≡ is_uuid text.now }
{
    let size = text.len();
    if size < 1 {
        return false;
    }
    if MOST_UUID < size {
        return false;
    }
    for b in text {
        if !is_uuid_byte(*b) {
            return false;
        }
    }
    true
}

fn is_uuid_byte(b: u8) -> bool
    ensures { result ≡ is_uuid_byte b }
{
    b.is_ascii_alphanumeric() || b == b'-'
}
