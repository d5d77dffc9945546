// The committed folders of a listing as an exported function on numbers and slices. include/tussockbell.h declares it
// for C.
#![tactic(auto)]

ghost use Rattle.std.specs.Prelude.{◌≡◌, get_or};
ghost use Rattle.answers.specs.Laid.{laid};
ghost use Rattle.commits.specs.Committed.{committed_answer, committed_lines};
ghost use Rattle.commits.specs.Alike.{AlikeListings};
ghost use Rattle.c_commits.specs.Places.{committed_places};

use commits::Committed;

// Which folders of a listing are committed and no later than `time`?
#[unsafe(no_mangle)]
pub extern "C" fn tussockbell_committed(
    listing: &[u8],
    time: u64,
    out: &mut [u32],
    answer: &mut [u64; 3],
)
    ensures answer { answer.new ≡ committed_places (committed_answer listing.now time) }
    ensures buffer { out.new ≡ laid (committed_lines listing.now time) out.old }
    ensures alike { AlikeListings listing.now time (get_or answer.new 2 0) out.new }
{
    let r = Committed::from(commits::find_committed(listing, time, out));
    *answer = [r.number, r.place, r.found];
}
