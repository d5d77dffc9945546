// The tree writer as exported functions on numbers and slices. include/tussockbell.h declares them for C.
#![tactic(auto)]

ghost use Rattle.std.specs.Prelude.{◌≡◌, length};
ghost use Rattle.written.specs.Writing.{length_answer, write_answer, write_buffer};
ghost use Rattle.c_arguments.specs.Described.{describe};
ghost use Rattle.c_writer.specs.Places.{written_places};

use written::Written;

// Writes a whole tree.
#[unsafe(no_mangle)]
pub extern "C" fn tussockbell_write_tree(
    kinds: &[u8],
    fields: u64,
    capacity: u64,
    tiles: u64,
    fanout: u64,
    leaves: &[u8],
    out: &mut [u8],
    answer: &mut [u64; 3],
)
    ensures answer { answer.new ≡ written_places (write_answer
        (describe kinds.now fields capacity) tiles fanout leaves.now
        (length out.old)) }
    ensures buffer { out.new ≡ write_buffer
        (describe kinds.now fields capacity) tiles fanout leaves.now out.old }
{
    let d = c_arguments::describe(kinds, fields, capacity);
    let r = Written::from(writer::write(d, tiles, fanout, leaves, out));
    *answer = [r.number, r.place, r.length];
}

// How many bytes a tree has.
#[unsafe(no_mangle)]
pub extern "C" fn tussockbell_tree_length(
    kinds: &[u8],
    fields: u64,
    capacity: u64,
    tiles: u64,
    fanout: u64,
    answer: &mut [u64; 3],
)
    ensures { answer.new ≡ written_places (length_answer
        (describe kinds.now fields capacity) tiles fanout) }
{
    let d = c_arguments::describe(kinds, fields, capacity);
    let r = Written::from(leaves::body_length(d, tiles, fanout));
    *answer = [r.number, r.place, r.length];
}
