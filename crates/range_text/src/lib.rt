// A range from two decimal numbers, in the kind of its dimension.
#![tactic(auto)]

ghost use Rattle.std.specs.Prelude.{◌≡◌};
ghost use Rattle.range_text.specs.Ranges.{read_range};

use description::Kind;
use ranges::Range;

// The minimum and the maximum as numbers of that kind. No float is read from a text.
#[tactic(auto, unfolding(crate::specs::Ranges::read_range))]
pub fn read_range(kind: Kind, minimum: &[u8], maximum: &[u8]) -> Option<Range>
    ensures { result ≡ read_range kind minimum.now maximum.now }
{
    match kind {
        Kind::Int32 => {
            let low = decimal::read_i32(minimum)?;
            let high = decimal::read_i32(maximum)?;
            Some(Range::I32(low, high))
        }
        Kind::Int64 => {
            let low = decimal::read_i64(minimum)?;
            let high = decimal::read_i64(maximum)?;
            Some(Range::I64(low, high))
        }
        Kind::Uint64 => {
            let low = decimal::read_u64(minimum)?;
            let high = decimal::read_u64(maximum)?;
            Some(Range::U64(low, high))
        }
        Kind::Float32 | Kind::Float64 => None,
    }
}
