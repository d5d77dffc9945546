// MBRs and windows: their types, a box in its bytes, and the faults of its ranges.
#![tactic(auto)]

ghost use Rattle.std.specs.Prelude.{◌≡◌};
ghost use Rattle.answers.specs.Told.{told};
ghost use Rattle.description.specs.Description.{sides_of};
ghost use Rattle.boxes.specs.Boxes.{no_box, box_of, ranges_refusal};

use answers::Refused;
use description::Dimension;
use ranges::Range;
use verdicts::Verdict;

// An MBR is an array of four sides, of which the first D count.
#[derive(Clone, Copy)]
pub struct Side {
    pub range: Range,
}

// A query's box, with a number of dimensions of its own.
#[derive(Clone, Copy)]
pub struct Window {
    pub dimensions: u64,
    pub sides: [Side; 4],
}

pub fn no_box() -> [Side; 4]
    ensures { result ≡ no_box }
{
    let side = Side {
        range: Range::I64(0, 0),
    };
    [side; 4]
}

// The box in its bytes. A place past the dimensions has an int64 range 0 to 0; a range not wholly there is 0 to 0.
pub fn read_box(bytes: &[u8], kinds: [Dimension; 4], dimensions: u64) -> [Side; 4]
    ensures { result ≡ box_of kinds (sides_of dimensions) bytes.now }
{
    let mut sides = no_box();
    let n = description::sides_of(dimensions);
    let mut at: usize = 0;
    for i in 0..n {
        let kind = kinds[i].kind;
        let range = Range::read(bytes, at, kind);
        sides[i] = Side { range };
        at += kind.range_bytes();
    }
    sides
}

// The ranges of a box in turn: the refusal of the first that has a fault, at its start from the box's.
pub fn check_ranges(bytes: &[u8], kinds: [Dimension; 4], dimensions: u64) -> Result<(), Refused>
    ensures { told result ≡ ranges_refusal kinds (sides_of dimensions) bytes.now 0 }
{
    let n = description::sides_of(dimensions);
    let mut at: usize = 0;
    for i in 0..n {
        let kind = kinds[i].kind;
        let range = Range::read(bytes, at, kind);
        Verdict::of(range).stored(at as u64)?;
        at += kind.range_bytes();
    }
    Ok(())
}
