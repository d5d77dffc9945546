// The state of a tree body that arrives in parts: what goes from call to call, what it holds of the bytes received, and
// the start, which takes the footer and the stated length of the body. The crate `parts` takes the bytes.
#![tactic(auto)]

ghost use Rattle.std.specs.Prelude.{◌≡◌, ◌≤◌, length, take};
ghost use Rattle.parts_state.specs.Took.{Starts};

use answers::Reason;
use description::Description;

// What has come. All of it is numbers, since C keeps them between the calls, and a state that C lends may have any.
#[derive(Clone, Copy)]
pub struct Cursor {
    // what is refused for good, whatever comes; number 0 while nothing is
    pub number: u64,
    pub place: u64,
    pub which: u64,
    // 0 until the first eight bytes are there; then the fanout and L
    pub fanout: usize,
    pub levels: usize,
    // what comes next: a level by its distance from the leaves, 1 and its count where that has come, a box of it by its
    // index
    pub level: usize,
    pub counted: usize,
    pub count: usize,
    pub index: usize,
    // where the level's boxes go in the work buffer, and where those of the level above it stand
    pub own: usize,
    pub parents: usize,
    // the bytes of all that came whole; and of a number or box that came in part, how many bytes
    pub done: u64,
    pub kept: usize,
    // the first fault of a box
    pub box_number: u64,
    pub box_place: u64,
}

// What goes from call to call, beside the work buffer.
#[derive(Clone, Copy)]
pub struct Parts {
    // what came with the start: n, the domain's bytes and the stated length of the body
    pub description: Description,
    pub tiles: u64,
    pub domain: [u8; 64],
    pub stated: u64,
    pub cursor: Cursor,
    // the bytes of a number or box that came in part
    pub held: [u8; 64],
}

// Before anything has come.
const NOTHING: Cursor = Cursor {
    number: 0,
    place: 0,
    which: 0,
    fanout: 0,
    levels: 0,
    level: 0,
    counted: 0,
    count: 0,
    index: 0,
    own: 0,
    parents: 0,
    done: 0,
    kept: 0,
    box_number: 0,
    box_place: 0,
};

// Takes the footer and the stated length of the body.
pub fn start(description: Description, file_size: u64, footer: &[u8], stated: u64) -> Parts
    ensures { Starts description file_size footer.now stated result }
{
    let blank = Parts {
        description,
        tiles: 0,
        domain: [0u8; 64],
        stated,
        cursor: NOTHING,
        held: [0u8; 64],
    };
    let checked = footer::check(description, file_size, footer);
    if checked.number != 0 {
        let cursor = Cursor {
            number: checked.number,
            place: checked.place,
            ..NOTHING
        };
        return Parts { cursor, ..blank };
    }
    if stated < 8 {
        let cursor = Cursor {
            number: Reason::Bytes.number(),
            place: stated,
            which: 1,
            ..NOTHING
        };
        return Parts { cursor, ..blank };
    }
    let from = checked.domain as usize;
    let to = from + description.box_bytes();
    Parts {
        tiles: checked.tiles,
        domain: padded(&footer[from..to]),
        ..blank
    }
}

// The bytes, and zeros after them.
fn padded(bytes: &[u8]) -> [u8; 64]
    requires { length bytes.now ≤ 64 }
    ensures { take (length bytes.now) result ≡ bytes.now }
{
    let mut all = [0u8; 64];
    all[..bytes.len()].copy_from_slice(bytes);
    all
}
