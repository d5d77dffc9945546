// Every number of a footer, as an exported function on numbers and slices. include/tussockbell.h declares it for C.
#![tactic(auto)]

ghost use Rattle.std.specs.Prelude.{◌≡◌};
ghost use Rattle.footer.specs.Answer.{footer_answer};
ghost use Rattle.c_arguments.specs.Described.{describe};
ghost use Rattle.c_answers.specs.Places.{footer_places};

// Every number of a footer.
#[unsafe(no_mangle)]
pub extern "C" fn tussockbell_footer(
    kinds: &[u8],
    fields: u64,
    capacity: u64,
    file_size: u64,
    footer: &[u8],
    answer: &mut [u64; 730],
)
    ensures { answer.new ≡ footer_places (footer_answer
        (describe kinds.now fields capacity) file_size footer.now) }
{
    let d = c_arguments::describe(kinds, fields, capacity);
    let f = footer_fields::open(d, file_size, footer);
    c_answers::put_footer(answer, f);
}
