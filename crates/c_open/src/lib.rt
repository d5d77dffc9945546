// Opening as exported functions on numbers and slices: a footer and a tree together, and a tree that arrives in parts.
// include/tussockbell.h declares them for C, which keeps the state between the calls as an array of numbers.
#![tactic(auto)]

ghost use Rattle.std.specs.Prelude.{◌≡◌, List, ℕ, ◌+◌, ◌≤◌, ◌<◌, length, get_or};
ghost use Rattle.std.proofs.lemmas.List.Edits.{sets};
ghost use Rattle.description.specs.declared.Description.{Description};
ghost use Rattle.rtree.specs.Opening.{open_answer};
ghost use Rattle.parts_state.specs.Parts.{parts_answer};
ghost use Rattle.parts_state.specs.Took.{Took, Starts, Carries};
ghost use Rattle.c_arguments.specs.Described.{describe};
ghost use Rattle.c_open.specs.Places.{opened_places};
ghost use Rattle.c_open.specs.State.{state_places, description_in, cursor_of, state_of, bytes_in, words_of};
ghost use Rattle.c_open.specs.State.{kinds_in, kind_numbers};

use description::{Description, Dimension, Kind};
use parts_state::{Cursor, Parts};
use rtree::Opened;

// The places of a state: its numbers, and eight bytes in each place from DOMAIN and from HELD on.
const NUMBER: usize = 0;

const PLACE: usize = 1;

const WHICH: usize = 2;

const DIMENSIONS: usize = 3;

const FIRST_KIND: usize = 4;

const SECOND_KIND: usize = 5;

const THIRD_KIND: usize = 6;

const FOURTH_KIND: usize = 7;

const FIELDS: usize = 8;

const CAPACITY: usize = 9;

const TILES: usize = 10;

const STATED: usize = 11;

const FANOUT: usize = 12;

const LEVELS: usize = 13;

const LEVEL: usize = 14;

const COUNTED: usize = 15;

const COUNT: usize = 16;

const INDEX: usize = 17;

const OWN: usize = 18;

const PARENTS: usize = 19;

const DONE: usize = 20;

const KEPT: usize = 21;

const BOX_NUMBER: usize = 22;

const BOX_PLACE: usize = 23;

const DOMAIN: usize = 24;

const HELD: usize = 32;

// Opens a footer and a tree together.
#[unsafe(no_mangle)]
pub extern "C" fn tussockbell_open(
    kinds: &[u8],
    fields: u64,
    capacity: u64,
    file_size: u64,
    footer: &[u8],
    tree: &[u8],
    answer: &mut [u64; 6],
)
    ensures { answer.new ≡ opened_places (open_answer
        (describe kinds.now fields capacity) file_size footer.now tree.now) }
{
    let d = c_arguments::describe(kinds, fields, capacity);
    let r = opening::open(d, file_size, footer, tree);
    *answer = places(r);
}

fn places(r: Opened) -> [u64; 6]
    ensures { result ≡ opened_places r }
{
    [r.number, r.place, r.which, r.tiles, r.fanout, r.levels]
}

// Takes the footer and the stated length of the body. What it writes and what a finish reads is written out in each of
// the two, so that a block alone calls `put_state` and `state_of` and is compiled as one function with them.
#[unsafe(no_mangle)]
pub extern "C" fn tussockbell_parts_start(
    kinds: &[u8],
    fields: u64,
    capacity: u64,
    file_size: u64,
    footer: &[u8],
    stated: u64,
    state: &mut [u64; 40],
)
    ensures { Starts (describe kinds.now fields capacity) file_size footer.now stated
        (state_of state.new) }
{
    let d = c_arguments::describe(kinds, fields, capacity);
    let s = parts_state::start(d, file_size, footer, stated);
    *state = [0u64; 40];
    let made = s.description;
    let k = made.kinds;
    let numbers = kind_numbers(k);
    put_numbers(state, s, numbers);
    put_bytes(state, DOMAIN, &s.domain);
    put_bytes(state, HELD, &s.held);
}

// Takes one block, of any length.
#[unsafe(no_mangle)]
pub extern "C" fn tussockbell_parts_block(state: &mut [u64; 40], work: &mut [u8], bytes: &[u8])
    ensures { Carries (state_of state.old) work.old bytes.now
        (state_of state.new) work.new }
{
    let s = state_of(state);
    let r = parts::block(s, work, bytes);
    put_state(state, r);
}

// What all blocks came to.
#[unsafe(no_mangle)]
pub extern "C" fn tussockbell_parts_finish(state: &[u64; 40], work: &[u8], answer: &mut [u64; 6])
    ensures { (d : Description) (F : ℕ) (footer : List ℕ) (stated : ℕ) (got : List ℕ)
        → Took d F footer stated got (state_of state.now) work.now
        → answer.new ≡ opened_places (parts_answer d F footer stated (length work.now) got) }
{
    let d = description_in(state);
    let domain = bytes_in(state, DOMAIN);
    let held = bytes_in(state, HELD);
    let c = cursor_of(state);
    let s = Parts {
        description: d,
        tiles: state[TILES],
        domain,
        stated: state[STATED],
        cursor: c,
        held,
    };
    *answer = places(parts::finish(s, work));
}

// The state as numbers: those that are no list, then the domain's bytes and the bytes of what has come in part, eight
// in each place.
fn put_state(state: &mut [u64; 40], s: Parts)
    ensures { state_of state.new ≡ s }
{
    *state = [0u64; 40];
    let d = s.description;
    let k = d.kinds;
    let kinds = kind_numbers(k);
    put_numbers(state, s, kinds);
    put_bytes(state, DOMAIN, &s.domain);
    put_bytes(state, HELD, &s.held);
}

#[tactic(auto, unfolding(crate::specs::State::kind_numbers, answers::specs::Runs::over))]
fn kind_numbers(kinds: [Dimension; 4]) -> [u64; 4]
    ensures { (result ≡ kind_numbers kinds) × (length kinds ≡ 4) }
{
    [
        kinds[0].kind.datatype(),
        kinds[1].kind.datatype(),
        kinds[2].kind.datatype(),
        kinds[3].kind.datatype(),
    ]
}

fn put_numbers(state: &mut [u64; 40], s: Parts, kinds: [u64; 4])
    ensures { state.new ≡ sets state.old 0 (state_places s kinds) }
{
    let d = s.description;
    let c = s.cursor;
    state[NUMBER] = c.number;
    state[PLACE] = c.place;
    state[WHICH] = c.which;
    state[DIMENSIONS] = d.dimensions;
    state[FIRST_KIND] = kinds[0];
    state[SECOND_KIND] = kinds[1];
    state[THIRD_KIND] = kinds[2];
    state[FOURTH_KIND] = kinds[3];
    state[FIELDS] = d.fields;
    state[CAPACITY] = d.capacity;
    state[TILES] = s.tiles;
    state[STATED] = s.stated;
    state[FANOUT] = c.fanout as u64;
    state[LEVELS] = c.levels as u64;
    state[LEVEL] = c.level as u64;
    state[COUNTED] = c.counted as u64;
    state[COUNT] = c.count as u64;
    state[INDEX] = c.index as u64;
    state[OWN] = c.own as u64;
    state[PARENTS] = c.parents as u64;
    state[DONE] = c.done;
    state[KEPT] = c.kept as u64;
    state[BOX_NUMBER] = c.box_number;
    state[BOX_PLACE] = c.box_place;
}

// Bytes from a place on, eight in each place.
fn put_bytes(state: &mut [u64; 40], at: usize, bytes: &[u8; 64])
    requires { at + 8 ≤ 40 }
    ensures { (state.new ≡ sets state.old at (words_of bytes.now))
        × (length bytes.now ≡ 64) × ((i : ℕ) → get_or bytes.now i 0 < 256) }
{
    for i in 0..8 {
        state[at + i] = order::u64_at(bytes, i * 8);
    }
}

// The state that an array holds.
fn state_of(state: &[u64; 40]) -> Parts
    ensures { result ≡ state_of state.now }
{
    let d = description_in(state);
    let domain = bytes_in(state, DOMAIN);
    let held = bytes_in(state, HELD);
    let c = cursor_of(state);
    Parts {
        description: d,
        tiles: state[TILES],
        domain,
        stated: state[STATED],
        cursor: c,
        held,
    }
}

fn description_in(state: &[u64; 40]) -> Description
    ensures { result ≡ description_in state.now }
{
    let kinds = kinds_in(state);
    Description {
        dimensions: state[DIMENSIONS],
        kinds,
        fields: state[FIELDS],
        capacity: state[CAPACITY],
    }
}

fn cursor_of(state: &[u64; 40]) -> Cursor
    ensures { result ≡ cursor_of state.now }
{
    Cursor {
        number: state[NUMBER],
        place: state[PLACE],
        which: state[WHICH],
        fanout: state[FANOUT] as usize,
        levels: state[LEVELS] as usize,
        level: state[LEVEL] as usize,
        counted: state[COUNTED] as usize,
        count: state[COUNT] as usize,
        index: state[INDEX] as usize,
        own: state[OWN] as usize,
        parents: state[PARENTS] as usize,
        done: state[DONE],
        kept: state[KEPT] as usize,
        box_number: state[BOX_NUMBER],
        box_place: state[BOX_PLACE],
    }
}

#[tactic(auto, unfolding(crate::specs::State::kinds_in, answers::specs::Runs::over))]
fn kinds_in(state: &[u64; 40]) -> [Dimension; 4]
    ensures { result ≡ kinds_in state.now 4 }
{
    [
        Dimension {
            kind: Kind::of(state[FIRST_KIND]),
        },
        Dimension {
            kind: Kind::of(state[SECOND_KIND]),
        },
        Dimension {
            kind: Kind::of(state[THIRD_KIND]),
        },
        Dimension {
            kind: Kind::of(state[FOURTH_KIND]),
        },
    ]
}

fn bytes_in(state: &[u64; 40], at: usize) -> [u8; 64]
    requires { at + 8 ≤ 40 }
    ensures { result ≡ bytes_in state.now at }
{
    let mut bytes = [0u8; 64];
    for i in 0..8 {
        order::put_u64(&mut bytes, i * 8, state[at + i]);
    }
    bytes
}
