// The dense grid and the dense footer, as exported functions on numbers and slices. include/tussockbell.h declares them
// for C.
#![tactic(auto)]

ghost use Rattle.std.specs.Prelude.{◌≡◌, get_or, take, drop};
ghost use Rattle.footer.specs.Answer.{dense_checked, dense_footer_answer, dense_schema_name};
ghost use Rattle.c_arguments.specs.Described.{describe};
ghost use Rattle.c_answers.specs.Places.{footer_places, name_places};
ghost use Rattle.c_dense.specs.Lent.{order_of, extents_of, describe_grid, lent_refusal, lent_answer, lent_buffer};
ghost use Rattle.c_dense.specs.Lent.{refusal_places, answer_places};

use answers::Refusal;
use dense::{DenseAnswer, Order};
use description::Description;

// Which tiles of a dense array does a window touch?
#[unsafe(no_mangle)]
pub extern "C" fn tussockbell_dense_query(
    kinds: &[u8],
    fields: u64,
    capacity: u64,
    domain_kinds: &[u8],
    domain_ends: &[u8],
    extents: &[u64],
    order: u64,
    window_kinds: &[u8],
    window_ends: &[u8],
    out: &mut [u32],
    answer: &mut [u64; 3],
)
    ensures answer { answer.new ≡ answer_places (lent_answer kinds.now fields capacity
        domain_kinds.now domain_ends.now extents.now order
        window_kinds.now window_ends.now) }
    ensures buffer { out.new ≡ lent_buffer kinds.now fields capacity
        domain_kinds.now domain_ends.now extents.now order
        window_kinds.now window_ends.now out.old }
{
    let d = describe_grid(kinds, fields, capacity, order);
    let domain = c_arguments::window_of(d, domain_kinds, domain_ends);
    let w = c_arguments::window_of(d, window_kinds, window_ends);
    let sizes = extents_of(extents);
    let r = DenseAnswer::from(dense::query(d, domain, sizes, order_of(order), w, out));
    *answer = [r.number, r.place, r.found];
}

// Is the grid one that can be asked? What a query refuses after this is its window.
#[unsafe(no_mangle)]
pub extern "C" fn tussockbell_dense_check(
    kinds: &[u8],
    fields: u64,
    capacity: u64,
    domain_kinds: &[u8],
    domain_ends: &[u8],
    extents: &[u64],
    order: u64,
    answer: &mut [u64; 2],
)
    ensures { answer.new ≡ refusal_places (lent_refusal kinds.now fields capacity
        domain_kinds.now domain_ends.now extents.now order) }
{
    let d = describe_grid(kinds, fields, capacity, order);
    let domain = c_arguments::window_of(d, domain_kinds, domain_ends);
    let sizes = extents_of(extents);
    let r = Refusal::from(dense::check_grid(d, domain, sizes));
    *answer = [r.number, r.place];
}

// Every number of a dense footer.
#[unsafe(no_mangle)]
pub extern "C" fn tussockbell_dense_footer(
    kinds: &[u8],
    fields: u64,
    capacity: u64,
    file_size: u64,
    footer: &[u8],
    answer: &mut [u64; 730],
)
    ensures { answer.new ≡ footer_places (dense_footer_answer
        (describe kinds.now fields capacity) file_size footer.now) }
{
    let d = c_arguments::describe(kinds, fields, capacity);
    let f = footer_fields::open_dense(d, file_size, footer);
    c_answers::put_footer(answer, f);
}

// Where the schema name stands in a lent dense footer.
#[unsafe(no_mangle)]
pub extern "C" fn tussockbell_dense_schema_name(
    kinds: &[u8],
    fields: u64,
    capacity: u64,
    file_size: u64,
    footer: &[u8],
    answer: &mut [u64; 2],
)
    ensures places { answer.new ≡ name_places (describe kinds.now fields capacity)
        footer.now (dense_checked (describe kinds.now fields capacity) file_size
        footer.now) }
    ensures name { take (get_or answer.new 1 0) (drop (get_or answer.new 0 0)
        footer.now)
        ≡ dense_schema_name (describe kinds.now fields capacity) file_size footer.now }
{
    let d = c_arguments::describe(kinds, fields, capacity);
    let r = footer::check_dense(d, file_size, footer);
    *answer = c_answers::name_places(r);
}

// An order that is none counts as no fields, which is outside the limits.
fn describe_grid(kinds: &[u8], fields: u64, capacity: u64, order: u64) -> Description
    ensures { result ≡ describe_grid kinds.now fields capacity order }
{
    let some = c_arguments::or_zero(order < 2, fields);
    c_arguments::describe(kinds, some, capacity)
}

fn order_of(order: u64) -> Order
    ensures { result ≡ order_of order }
{
    if order == 1 {
        Order::ColumnMajor
    } else {
        Order::RowMajor
    }
}

fn extents_of(numbers: &[u64]) -> [u64; 4]
    ensures { result ≡ extents_of numbers.now }
{
    let a = number_at(numbers, 0);
    let b = number_at(numbers, 1);
    let c = number_at(numbers, 2);
    let d = number_at(numbers, 3);
    [a, b, c, d]
}

fn number_at(numbers: &[u64], i: usize) -> u64
    ensures { result ≡ get_or numbers.now i 0 }
{
    if i < numbers.len() { numbers[i] } else { 0 }
}
