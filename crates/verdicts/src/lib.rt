// A range judged: the verdict on it, and what that says of a stored range and of a window's.
#![tactic(auto)]

ghost use Rattle.std.specs.Prelude.{◌≡◌, ◌||◌, cond};
ghost use Rattle.std.specs.Float.Ieee.{nan_bits};
ghost use Rattle.answers.specs.Told.{told};
ghost use Rattle.order.specs.Key.{float_at_most, infinite};
ghost use Rattle.ranges.specs.Ranges.{ends_of};
ghost use Rattle.verdicts.specs.Verdicts.{verdict, verdict_on, stored_refusal, asked_refusal};

use answers::{Reason, Refused};
use floats::Float;
use ints::Int;
use ranges::Range;

// The verdict on a range: what its ends are, and whether they are in order. A stored range must be sound; a window's
// may be infinite.
#[derive(Clone, Copy)]
pub enum Verdict {
    Sound(Range),
    Infinite(Range),
    InfiniteReversed,
    NotANumber,
    Reversed,
}

impl Verdict {
    pub fn of(range: Range) -> Verdict
        ensures { result ≡ verdict (ends_of range) range }
    {
        match range {
            Range::I32(low, high) => finite_verdict(range, low.at_most(high)),
            Range::I64(low, high) => finite_verdict(range, low.at_most(high)),
            Range::F32(low, high) => float_verdict(range, low, high),
            Range::F64(low, high) => float_verdict(range, low, high),
            Range::U64(low, high) => finite_verdict(range, low.at_most(high)),
        }
    }

    // What each verdict on a stored range says at a place.
    #[tactic(auto, unfolding(answers::specs::Told::told, answers::specs::Told::number_of))]
    pub fn stored(self, place: u64) -> Result<(), Refused>
        ensures { told result ≡ stored_refusal self place }
    {
        match self {
            Verdict::Sound(_) => Ok(()),
            Verdict::Infinite(_) | Verdict::InfiniteReversed => Err(Reason::Infinite.at(place)),
            Verdict::NotANumber => Err(Reason::NotANumber.at(place)),
            Verdict::Reversed => Err(Reason::Reversed.at(place)),
        }
    }

    // And on a range of a window.
    #[tactic(auto, unfolding(answers::specs::Told::told, answers::specs::Told::number_of))]
    pub fn asked(self, place: u64) -> Result<(), Refused>
        ensures { told result ≡ asked_refusal self place }
    {
        match self {
            Verdict::Sound(_) | Verdict::Infinite(_) => Ok(()),
            Verdict::InfiniteReversed | Verdict::Reversed => Err(Reason::Reversed.at(place)),
            Verdict::NotANumber => Err(Reason::NotANumber.at(place)),
        }
    }
}

// The verdict on a range of finite ends, in order or not.
fn finite_verdict(range: Range, ordered: bool) -> Verdict
    ensures { result ≡ cond ordered (Verdict.Sound range) Verdict.Reversed }
{
    if ordered {
        return Verdict::Sound(range);
    }
    Verdict::Reversed
}

// The verdict on a range of floats. A sound range is told first, with an early return: opening asks this of every box, and
// finds hardly any other.
fn float_verdict<F: Float>(range: Range, low: F, high: F) -> Verdict
    ensures { result ≡ verdict_on range (float_at_most F.format (F.pattern low) (F.pattern high))
        (nan_bits F.format (F.pattern low) || nan_bits F.format (F.pattern high))
        (infinite F.format (F.pattern low) || infinite F.format (F.pattern high)) }
{
    if low.finite_at_most(high) {
        return Verdict::Sound(range);
    }
    other_verdict(
        range,
        low.at_most(high),
        low.is_nan() || high.is_nan(),
        low.is_infinite() || high.is_infinite(),
    )
}

// The verdict on a range that is not sound: one end is NaN or not, the ends are in order or not, one is infinite or
// not.
fn other_verdict(range: Range, ordered: bool, nan: bool, infinite: bool) -> Verdict
    ensures { result ≡ cond nan Verdict.NotANumber
        (cond ordered (Verdict.Infinite range) (cond infinite Verdict.InfiniteReversed Verdict.Reversed)) }
{
    if nan {
        return Verdict::NotANumber;
    }
    if ordered {
        return Verdict::Infinite(range);
    }
    if infinite {
        return Verdict::InfiniteReversed;
    }
    Verdict::Reversed
}
