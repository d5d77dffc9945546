// The box test as an exported function on numbers and slices. include/tussockbell.h declares it for C.
#![tactic(auto)]

ghost use Rattle.std.specs.Prelude.{◌≡◌, get_or};
ghost use Rattle.query.specs.BoxTest.{box_test_answer, ReadUp};
ghost use Rattle.c_arguments.specs.Described.{describe};
ghost use Rattle.c_arguments.specs.Windows.{window_of_bytes};
ghost use Rattle.c_box_test.specs.Places.{box_test_places, tested_at};

// Does a box meet a window, and how many of its dimensions are read for that?
#[unsafe(no_mangle)]
pub extern "C" fn tussockbell_box_test(
    kinds: &[u8],
    fields: u64,
    capacity: u64,
    stored: &[u8],
    window_kinds: &[u8],
    window_ends: &[u8],
    answer: &mut [u64; 4],
)
    ensures answer { answer.new ≡ box_test_places (box_test_answer
        (describe kinds.now fields capacity) stored.now
        (window_of_bytes (describe kinds.now fields capacity)
        window_kinds.now window_ends.now)) }
    ensures read { get_or answer.new 0 0 ≡ 0
        → ReadUp (describe kinds.now fields capacity) stored.now
        (window_of_bytes (describe kinds.now fields capacity)
        window_kinds.now window_ends.now) (tested_at answer.new) }
{
    let d = c_arguments::describe(kinds, fields, capacity);
    let w = c_arguments::window_of(d, window_kinds, window_ends);
    let r = query::box_test(d, stored, w);
    let meets = r.tested.meets as u64;
    *answer = [r.number, r.place, meets, r.tested.read as u64];
}
