// The window query and a batch of windows as exported functions on numbers and slices. include/tussockbell.h declares
// them for C.
#![tactic(auto)]

ghost use Rattle.std.specs.Prelude.{◌≡◌, ◌++◌, ◌∷◌, [], ◌+◌, ◌-◌, ◌*◌, ◌^◌, ◌≤◌, ◌<◌, length, drop};
ghost use Rattle.std.proofs.lemmas.List.Edits.{sets};
ghost use Rattle.query.specs.Query.{query_answer, query_buffer, Promises};
ghost use Rattle.batch.specs.Batch.{batch_buffer};
ghost use Rattle.c_arguments.specs.Described.{describe};
ghost use Rattle.c_arguments.specs.Windows.{window_of_bytes};
ghost use Rattle.c_query.specs.Places.{answer_places, answer_in};
ghost use Rattle.c_query.specs.Lent.{window_bytes, lent_batch, window_at, windows_of, record_places, LentAnswered};

use answers::Reason;
use batch::{Asked, Batch};
use boxes::Window;
use description::Description;

// Which tiles does a window touch?
#[unsafe(no_mangle)]
pub extern "C" fn tussockbell_query(
    kinds: &[u8],
    fields: u64,
    capacity: u64,
    tiles: u64,
    tree: &[u8],
    window_kinds: &[u8],
    window_ends: &[u8],
    out: &mut [u32],
    answer: &mut [u64; 4],
)
    ensures answer { answer.new ≡ answer_places (query_answer
        (describe kinds.now fields capacity) tiles tree.now
        (window_of_bytes (describe kinds.now fields capacity)
        window_kinds.now window_ends.now)) }
    ensures buffer { out.new ≡ query_buffer
        (describe kinds.now fields capacity) tiles tree.now
        (window_of_bytes (describe kinds.now fields capacity)
        window_kinds.now window_ends.now)
        out.old }
    ensures promises { Promises
        (describe kinds.now fields capacity) tiles tree.now
        (window_of_bytes (describe kinds.now fields capacity)
        window_kinds.now window_ends.now)
        (answer_in answer.new) out.old out.new }
{
    let d = c_arguments::describe(kinds, fields, capacity);
    let w = c_arguments::window_of(d, window_kinds, window_ends);
    let r = query::query(d, tiles, tree, w, out);
    *answer = [r.number, r.place, r.found, r.looked];
}

// Which tiles does each window of a batch touch?
#[unsafe(no_mangle)]
pub extern "C" fn tussockbell_query_batch(
    kinds: &[u8],
    fields: u64,
    capacity: u64,
    tiles: u64,
    tree: &[u8],
    window_kinds: &[u8],
    windows: &[u8],
    answers: &mut [u64],
    out: &mut [u32],
    answer: &mut [u64; 3],
)
    ensures { LentAnswered (describe kinds.now fields capacity) tiles tree.now
        window_kinds.now windows.now answer.new
        answers.old answers.new out.old out.new }
{
    let d = c_arguments::describe(kinds, fields, capacity);
    let width = window_bytes(window_kinds);
    let batch = check_lent(width, windows.len(), answers.len());
    ask_all(
        d,
        tiles,
        tree,
        window_kinds,
        windows,
        width,
        batch.windows,
        answers,
        out,
    );
    *answer = [batch.number, batch.place, batch.windows as u64];
}

// Each window in turn, with what the earlier ones left of the buffer.
fn ask_all(
    d: Description,
    tiles: u64,
    tree: &[u8],
    window_kinds: &[u8],
    windows: &[u8],
    width: usize,
    count: usize,
    answers: &mut [u64],
    out: &mut [u32],
)
    requires { (width ≡ window_bytes window_kinds.now) × ((count * width ≤ length windows.now)
        × (5 * count ≤ length answers.old)) }
    ensures answers { answers.new ≡ record_places d tiles tree.now
        (windows_of d window_kinds.now windows.now count) (length out.old)
        ++ drop (5 * count) answers.old }
    ensures buffer { out.new ≡ batch_buffer d tiles tree.now
        (windows_of d window_kinds.now windows.now count) out.old }
{
    let mut used: usize = 0;
    for i in 0..count {
        let window = window_at(d, window_kinds, windows, width, i);
        let asked = batch::ask_from(d, tiles, tree, window, out, used);
        put_record(answers, 5 * i, asked, used);
        used = asked.used;
    }
}

fn window_at(d: Description, window_kinds: &[u8], windows: &[u8], width: usize, i: usize) -> Window
    requires { (width ≡ window_bytes window_kinds.now) × (i * width + width ≤ length windows.now) }
    ensures { result ≡ window_at d window_kinds.now windows.now i }
{
    let start = i * width;
    let end = start + width;
    c_arguments::window_of(d, window_kinds, &windows[start..end])
}

fn put_record(answers: &mut [u64], at: usize, asked: Asked, used: usize)
    requires { (at + 5 ≤ length answers.old) × (used ≤ asked.used) }
    ensures { answers.new ≡ sets answers.old at (asked.answer.number ∷ asked.answer.place
        ∷ asked.answer.found ∷ asked.answer.looked ∷ (asked.used - used) ∷ []) }
{
    let answer = asked.answer;
    answers[at] = answer.number;
    answers[at + 1] = answer.place;
    answers[at + 2] = answer.found;
    answers[at + 3] = answer.looked;
    answers[at + 4] = (asked.used - used) as u64;
}

fn window_bytes(numbers: &[u8]) -> usize
    ensures { result ≡ window_bytes numbers.now }
{
    let kinds = c_arguments::dimensions_of(numbers);
    let description = Description {
        dimensions: numbers.len() as u64,
        kinds,
        fields: 1,
        capacity: 1,
    };
    description.box_bytes()
}

// 22 where the run of answers is not as long as the run of windows.
fn check_lent(width: usize, bytes: usize, places: usize) -> Batch
    requires { (width ≤ 64) × (places < 2 ^ 60) }
    ensures { result ≡ lent_batch width bytes places }
{
    let count = places / 5;
    if places == 5 * count && bytes == count * width {
        return batch::check_runs(count, count);
    }
    Batch {
        number: Reason::Runs.number(),
        place: 0,
        windows: 0,
    }
}
