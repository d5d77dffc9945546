// The report: what a window finds in a fragment, as a text. From lent bytes to lent bytes.
#![tactic(auto)]

ghost use Rattle.std.specs.Prelude.{◌≡◌, ◌≢◌, ℕ, ◌+◌, ◌≤◌, List, length, drop, cond, Some, None, IfOk, IfErr, OnOk};
ghost use Rattle.answers.specs.Laid.{laid};
ghost use Rattle.answers.specs.Told.{said};
ghost use Rattle.answers.specs.Runs.{filled};
ghost use Rattle.decimal.specs.Read.{read_number};
ghost use Rattle.decimal.specs.Write.{put};
ghost use Rattle.text.specs.Write.{field};
ghost use Rattle.text.specs.Text.{line_at};
ghost use Rattle.text.specs.Code.Places.{Wrote};
ghost use Rattle.report_text.specs.Asked.{is_width, dimension_of, bits_at, asked_of};
ghost use Rattle.report_text.specs.Text.{most_bytes, most_text, piece, refused_text, header_text, row_text};
ghost use Rattle.report_text.specs.Text.{tile_text, is_long, asked_text, report_text};
ghost use Rattle.report_text.specs.Code.Reading.{Next, side_read, KindsRead, SidesRead};
ghost use Rattle.report_text.specs.Code.Writing.{most_written, most_found, listed, Holds, Puts};
ghost use Rattle.report_text.specs.Code.Writing.{unlisted_text, outcome_text, Renders};

use answers::{Reason, Refusal, Refused};
use boxes::{Side, Window};
use description::{Description, Dimension, Kind};

// Answers the length of the text. It stands at the start of the buffer if all of it fits there; else the buffer stays
// as it was.
pub fn report(
    description: &[u8],
    footer: &[u8],
    tree: &[u8],
    offsets: &[u8],
    out: &mut [u8],
) -> usize
    ensures value { (result ≡ length
        (report_text description.now footer.now tree.now offsets.now))
        × (out.new ≡ put out.old 0
        (report_text description.now footer.now tree.now offsets.now)) }
    ensures bound { result ≤ most_text }
{
    // A tree of at most 65,536 bytes has fewer tiles.
    let mut tiles = [0u32; 8_192];
    let outcome = work_out(description, footer, tree, offsets, &mut tiles);
    let mut nowhere = [0u8; 1];
    let count = write_outcome(outcome, offsets, &tiles, 0, &mut nowhere);
    if count <= out.len() {
        write_outcome(outcome, offsets, &tiles, 0, out);
    }
    count
}

// The same text from one of its bytes on, as many bytes as fit. Answers the length of the whole text.
pub fn report_from(
    description: &[u8],
    footer: &[u8],
    tree: &[u8],
    offsets: &[u8],
    from: usize,
    out: &mut [u8],
) -> usize
    ensures length { result ≡ length
        (report_text description.now footer.now tree.now offsets.now) }
    ensures buffer { out.new ≡ laid (drop from
        (report_text description.now footer.now tree.now offsets.now))
        out.old }
    ensures bound { result ≤ most_text }
{
    let mut tiles = [0u32; 8_192];
    let outcome = work_out(description, footer, tree, offsets, &mut tiles);
    write_outcome(outcome, offsets, &tiles, from, out)
}

const MOST_BYTES: usize = 65_536;

// What the listing goes by.
#[derive(Clone, Copy)]
struct Listing {
    tiles: u64,
    last_cells: u64,
    capacity: u64,
    data_size: u64,
    found: u64,
    looked: u64,
}

// Why nothing is listed.
#[derive(Clone, Copy)]
enum Unlisted {
    TooLong,
    Refused(Refusal),
}

impl From<Refused> for Unlisted {
    ghost use Rattle.report_text.specs.declared.Unlisted.{Unlisted};

    ghost from_gives = { λ e why. why ≡ Unlisted.Refused (said e) };

    #[tactic(auto, unfolding(answers::specs::Told::told))]
    fn from(e: Refused) -> Unlisted {
        Unlisted::Refused(Refusal::from(Err(e)))
    }
}

fn any_long(description: &[u8], footer: &[u8], tree: &[u8], offsets: &[u8]) -> bool
    ensures { result ≡ is_long description.now footer.now tree.now offsets.now }
{
    MOST_BYTES < description.len()
        || MOST_BYTES < footer.len()
        || MOST_BYTES < tree.len()
        || MOST_BYTES < offsets.len()
}

fn work_out(
    description: &[u8],
    footer: &[u8],
    tree: &[u8],
    offsets: &[u8],
    tiles: &mut [u32],
) -> Result<Listing, Unlisted>
    requires { most_found ≤ length tiles.old }
    ensures { Renders
        (report_text description.now footer.now tree.now offsets.now)
        offsets.now tiles.new result }
{
    if any_long(description, footer, tree, offsets) {
        return Err(Unlisted::TooLong);
    }
    match read_asked(description) {
        Some(asked) => open_and_query(asked, footer, tree, offsets, tiles),
        None => Err(Unlisted::Refused(Refusal::from(Err(Reason::Description.at(0))))),
    }
}

// Opening, the offsets, the query: the first that refuses ends it.
fn open_and_query(
    asked: Asked,
    footer: &[u8],
    tree: &[u8],
    offsets: &[u8],
    tiles: &mut [u32],
) -> Result<Listing, Unlisted>
    requires { (length tree.now ≤ most_bytes) × (most_found ≤ length tiles.old) }
    ensures { Renders (asked_text asked footer.now tree.now offsets.now)
        offsets.now tiles.new result }
{
    let description = asked.description;
    let opened = opening::open(description, asked.file_size, footer, tree);
    pass(opened.number, opened.place)?;
    entries::open_offsets(offsets, opened.tiles, asked.data_size)?;
    let answer = query::query(description, opened.tiles, tree, asked.window, tiles);
    pass(answer.number, answer.place)?;
    let checked = footer::check(description, asked.file_size, footer);
    Ok(Listing {
        tiles: opened.tiles,
        last_cells: checked.last_cells,
        capacity: description.capacity,
        data_size: asked.data_size,
        found: answer.found,
        looked: answer.looked,
    })
}

// Go on unless it refuses.
fn pass(number: u64, place: u64) -> Result<(), Unlisted>
    ensures ok { OnOk result (number ≡ 0) }
    ensures err { IfErr result (λ e. (number ≢ 0)
        × (e ≡ Unlisted.Refused (record { number = number; place = place }))) }
{
    if number == 0 {
        Ok(())
    } else {
        Err(Unlisted::Refused(Refusal { number, place }))
    }
}

// What the description file says.
#[derive(Clone, Copy)]
struct Asked {
    description: Description,
    file_size: u64,
    data_size: u64,
    window: Window,
}

// Every line of the file is what it has to be, and no more follow.
fn read_asked(text: &[u8]) -> Option<Asked>
    ensures { result ≡ asked_of text.now }
{
    let mut lines = Lines { text, at: 0 };
    let dimensions = lines.number(Description::MOST_DIMENSIONS)?;
    let d = dimensions as usize;
    let kinds = read_kinds(&mut lines, d)?;
    let fields = lines.number(u64::MAX)?;
    let capacity = lines.number(u64::MAX)?;
    let file_size = lines.number(u64::MAX)?;
    let data_size = lines.number(u64::MAX)?;
    let sides = read_window(&mut lines, d, kinds)?;
    if lines.at < text.len() {
        return None;
    }
    let description = Description {
        dimensions,
        kinds,
        fields,
        capacity,
    };
    if description.check().is_err() {
        return None;
    }
    Some(Asked {
        description,
        file_size,
        data_size,
        window: Window { dimensions, sides },
    })
}

// A text that is read line after line: the next one starts at `at`.
#[derive(Drop)]
struct Lines<'a> {
    text: &'a [u8],
    at: usize,
}

impl<'a> Lines<'a> {
    fn next(&mut self) -> &'a [u8]
        ensures { (t : List ℕ) → (k : ℕ) → Next t k self.old
            → (result.now ≡ line_at k t) × Next t (k + 1) self.new }
    {
        let line = text::piece_from(self.text, self.at, b'\n');
        self.at = text::after(self.text, self.at + line.len());
        line
    }

    fn number(&mut self, most: u64) -> Option<u64>
        ensures { (t : List ℕ) → (k : ℕ) → Next t k self.old
            → (result ≡ read_number most (line_at k t)) × Next t (k + 1) self.new }
    {
        let line = self.next();
        decimal::read_at_most(line, most)
    }

    // A minimum and a maximum.
    fn side(&mut self, kind: Kind) -> Option<Side>
        ensures { (t : List ℕ) → (k : ℕ) → Next t k self.old
            → (result ≡ side_read t k kind) × Next t (k + 2) self.new }
    {
        let minimum = self.next();
        let maximum = self.next();
        let range = range_text::read_range(kind, minimum, maximum)?;
        Some(Side { range })
    }
}

// The lines of the kinds. A place past D has 64 bits.
fn read_kinds<'a>(lines: &mut Lines<'a>, d: usize) -> Option<[Dimension; 4]>
    requires { d ≤ 4 }
    ensures { (t : List ℕ) → Next t 1 lines.old → KindsRead t d result lines.new }
{
    let mut kinds = [Dimension { kind: Kind::Int64 }; 4];
    for i in 0..d {
        let bits = lines.number(u64::MAX)?;
        kinds[i] = dimension_of(bits)?;
    }
    Some(kinds)
}

// An integer kind has 32 or 64 bits.
fn dimension_of(bits: u64) -> Option<Dimension>
    ensures { result ≡ cond (is_width bits) (Some (dimension_of bits)) None }
{
    match bits {
        32 => Some(Dimension { kind: Kind::Int32 }),
        64 => Some(Dimension { kind: Kind::Int64 }),
        _ => None,
    }
}

// The lines of the window. A place past D has the range that no dimension has.
fn read_window<'a>(lines: &mut Lines<'a>, d: usize, kinds: [Dimension; 4]) -> Option<[Side; 4]>
    requires { d ≤ 4 }
    ensures { (t : List ℕ) → Next t (5 + d) lines.old
        → kinds ≡ filled (λ i. dimension_of (bits_at t i)) (dimension_of 64) d 4
        → SidesRead t d result lines.new }
{
    let mut sides = boxes::no_box();
    for i in 0..d {
        sides[i] = lines.side(kinds[i].kind)?;
    }
    Some(sides)
}

// A text that is written piece after piece: the next one goes to place `at`, and the buffer has the bytes from byte
// `from` on, as many as fit.
#[derive(Drop)]
struct Writer<'a> {
    from: usize,
    out: &'a mut [u8],
    at: usize,
}

impl<'a> Writer<'a> {
    fn word(&mut self, word: &[u8])
        requires { self.old.at + length word.now ≤ most_written }
        ensures puts { Puts word.now (length word.now) self.old self.new }
        ensures same { self.new.out.ghost_name ≡ self.old.out.ghost_name }
    {
        self.at += text::write(word, self.from, self.out, self.at);
    }

    // A number, and the byte after it.
    fn field(&mut self, n: u64, end: u8)
        requires { self.old.at + 21 ≤ most_written }
        ensures puts { Puts (field n end) 21 self.old self.new }
        ensures same { self.new.out.ghost_name ≡ self.old.out.ghost_name }
    {
        self.at += text::write_field(n, end, self.from, self.out, self.at);
    }

    fn piece(&mut self, word: &[u8], n: u64, end: u8)
        requires { self.old.at + length word.now + 21 ≤ most_written }
        ensures puts { Puts (piece word.now n end) (length word.now + 21) self.old self.new }
        ensures same { self.new.out.ghost_name ≡ self.old.out.ghost_name }
    {
        self.word(word);
        self.field(n, end);
    }

    fn refused(&mut self, refusal: Refusal)
        requires { self.old.at + 84 ≤ most_written }
        ensures puts { Puts (refused_text refusal.number refusal.place) 84 self.old self.new }
        ensures same { self.new.out.ghost_name ≡ self.old.out.ghost_name }
    {
        self.piece(b"refused\t", refusal.number, b'\t');
        self.field(refusal.place, b'\n');
    }

    fn header(&mut self, tiles: u64, found: u64, looked: u64)
        requires { self.old.at + 84 ≤ most_written }
        ensures puts { Puts (header_text tiles found looked) 84 self.old self.new }
        ensures same { self.new.out.ghost_name ≡ self.old.out.ghost_name }
    {
        self.piece(b"tiles\t", tiles, b'\t');
        self.piece(b"found\t", found, b'\t');
        self.piece(b"looked\t", looked, b'\n');
    }

    fn row(&mut self, tile: u64, offset: u64, extent: u64, cells: u64)
        requires { self.old.at + 84 ≤ most_written }
        ensures puts { Puts (row_text tile offset extent cells) 84 self.old self.new }
        ensures same { self.new.out.ghost_name ≡ self.old.out.ghost_name }
    {
        self.field(tile, b'\t');
        self.field(offset, b'\t');
        self.field(extent, b'\t');
        self.field(cells, b'\n');
    }

    // The line of a tile.
    fn tile(&mut self, listing: Listing, offsets: &[u8], tile: u64)
        requires { self.old.at + 84 ≤ most_written }
        ensures puts { Puts (tile_text listing.tiles listing.last_cells listing.capacity
            listing.data_size offsets.now tile) 84 self.old self.new }
        ensures same { self.new.out.ghost_name ≡ self.old.out.ghost_name }
    {
        let part = lists::extent_at(offsets, listing.tiles, listing.data_size, tile);
        let cells = cells::cells_at(listing.tiles, listing.last_cells, listing.capacity, tile);
        self.row(tile, part.offset, part.extent, cells);
    }

    // The header, and the line of each tile.
    fn listing(&mut self, listing: Listing, offsets: &[u8], tiles: &[u32])
        requires { (self.old.at + most_text ≤ most_written) × Holds tiles.now listing }
        ensures puts { Puts (listed listing offsets.now tiles.now listing.found) most_text
            self.old self.new }
        ensures same { self.new.out.ghost_name ≡ self.old.out.ghost_name }
    {
        self.header(listing.tiles, listing.found, listing.looked);
        for tile in &tiles[..listing.found as usize] {
            self.tile(listing, offsets, u64::from(*tile));
        }
    }

    fn unlisted(&mut self, why: Unlisted)
        requires { self.old.at + 84 ≤ most_written }
        ensures puts { Puts (unlisted_text why) 84 self.old self.new }
        ensures same { self.new.out.ghost_name ≡ self.old.out.ghost_name }
    {
        match why {
            Unlisted::TooLong => self.word(b"too long\n"),
            Unlisted::Refused(refusal) => self.refused(refusal),
        }
    }

    fn outcome(&mut self, outcome: Result<Listing, Unlisted>, offsets: &[u8], tiles: &[u32])
        requires { (self.old.at + most_text ≤ most_written) × IfOk outcome (Holds tiles.now) }
        ensures puts { Puts (outcome_text outcome offsets.now tiles.now) most_text
            self.old self.new }
        ensures same { self.new.out.ghost_name ≡ self.old.out.ghost_name }
    {
        match outcome {
            Ok(listing) => self.listing(listing, offsets, tiles),
            Err(why) => self.unlisted(why),
        }
    }
}

// The answer is how long the text is.
fn write_outcome(
    outcome: Result<Listing, Unlisted>,
    offsets: &[u8],
    tiles: &[u32],
    from: usize,
    out: &mut [u8],
) -> usize
    requires { IfOk outcome (Holds tiles.now) }
    ensures { (Wrote from out.old 0
        (outcome_text outcome offsets.now tiles.now) out.new result) × (result ≤ most_text) }
{
    let mut text = Writer { from, out, at: 0 };
    text.outcome(outcome, offsets, tiles);
    text.at
}
