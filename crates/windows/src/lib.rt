// A window: checked against a description, and its ends as plain numbers.
#![tactic(auto)]

ghost use Rattle.std.specs.Prelude.{◌≡◌};
ghost use Rattle.answers.specs.Told.{told};
ghost use Rattle.description.specs.Description.{sides_of};
ghost use Rattle.ranges.specs.Ranges.{kind_of};
ghost use Rattle.boxes.specs.Boxes.{range_in};
ghost use Rattle.boxes.specs.Windows.{side_refusal, window_refusal};
ghost use Rattle.windows.specs.Code.Carried.{ends_of_window, Fitting};

use answers::{Reason, Refused};
use boxes::{Side, Window};
use description::{Description, Kind};
use ranges::Range;
use verdicts::Verdict;

// The patterns of a window's ends, carried.
pub fn window_ends(sides: [Side; 4], dimensions: u64) -> [u64; 8]
    ensures { (result ≡ ends_of_window sides (sides_of dimensions)) × Fitting (λ i. kind_of (range_in sides i)) result (sides_of
        dimensions) }
{
    let n = description::sides_of(dimensions);
    let mut ends = [0u64; 8];
    for i in 0..n {
        let side = sides[i].range.patterns();
        ends[2 * i] = side.low;
        ends[2 * i + 1] = side.high;
    }
    ends
}

// 19 for the number of dimensions; then per dimension 19, 8, 9, placed at the dimension.
pub fn check_window(description: Description, window: Window) -> Result<(), Refused>
    ensures { told result ≡ window_refusal description window }
{
    Reason::Window.when(window.dimensions != description.dimensions, 0)?;
    let n = description::sides_of(description.dimensions);
    for i in 0..n {
        check_side(window.sides[i].range, description.kinds[i].kind, i as u64)?;
    }
    Ok(())
}

fn check_side(range: Range, kind: Kind, place: u64) -> Result<(), Refused>
    ensures { told result ≡ side_refusal range kind place }
{
    Reason::Window.when(range.kind() != kind, place)?;
    Verdict::of(range).asked(place)
}
