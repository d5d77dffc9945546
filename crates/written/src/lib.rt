// What is written: the R-tree body that is made of its leaves, and the answer to the request for it. The definitions
// and their laws are here; the code that checks what is to be written is in `leaves`, the code that writes in `writer`.
#![tactic(auto)]

ghost use Rattle.std.specs.Prelude.{◌≡◌};
ghost use Rattle.written.specs.Writing.{told_writing};

use answers::{Refusal, Refused};

// What writing answers: a refusal, or the length of the body in bytes.
#[derive(Clone, Copy)]
pub struct Written {
    pub number: u64,
    pub place: u64,
    pub length: u64,
}

// As C and the definitions have it.
impl From<Result<u64, Refused>> for Written {
    ghost from_gives = { λ answer w. w ≡ told_writing answer };

    #[tactic(auto, unfolding(crate::specs::Writing::told_writing, answers::specs::Told::told))]
    fn from(answer: Result<u64, Refused>) -> Written {
        match answer {
            Ok(length) => Written {
                number: 0,
                place: 0,
                length,
            },
            Err(e) => Written {
                number: e.reason.number(),
                place: e.place,
                length: 0,
            },
        }
    }
}
