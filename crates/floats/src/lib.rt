// Which floats do bit patterns stand for, and in which order? Comparisons whose contracts speak of the patterns alone.
#![tactic(auto)]

ghost use Rattle.std.specs.Prelude.{◌≡◌, ℕ, false, not, ◌&&◌};
ghost use Rattle.std.specs.Float.{binary32, binary64};
ghost use Rattle.std.specs.Float.Ieee.{Format, to_bits, of_bits, nan_bits};
ghost use Rattle.order.specs.Key.{float_key, float_at_most, infinite};

use order::Word;

// A float that a range may end at, and its bit pattern.
pub trait Float: Copy {
    type Pattern: Word;

    ghost format: { Format };

    ghost of_pattern: { ℕ → Self };

    ghost pattern: { Self → ℕ };

    // The value that a pattern stands for.
    fn of(p: Self::Pattern) -> Self
        ensures { result ≡ of_pattern (Self.Pattern.number p) };

    // The pattern of a value: of a NaN it is one pattern, the quiet one with no sign.
    fn bits(self) -> Self::Pattern
        ensures { Self.Pattern.number result ≡ pattern self };

    // Whether a pattern is a NaN's: the magnitude is above the infinity's.
    fn nan_pattern(p: Self::Pattern) -> bool
        ensures { result ≡ nan_bits format (Self.Pattern.number p) };

    // Whether a pattern is finite, neither a NaN's nor an infinity's: the magnitude is below the infinity's.
    fn finite_pattern(p: Self::Pattern) -> bool
        ensures { result ≡ (not (nan_bits format (Self.Pattern.number p)) && not (infinite format (Self.Pattern.number p))) };

    // Is this at most another? False where one of them is a NaN.
    fn at_most(self, other: Self) -> bool
        ensures { result ≡ float_at_most format (pattern self) (pattern other) };

    // Is this at most another, and neither of them an infinity?
    fn finite_at_most(self, other: Self) -> bool
        ensures { result ≡ (float_at_most format (pattern self) (pattern other)
            && (not (infinite format (pattern self)) && not (infinite format (pattern other)))) };

    fn is_infinite(self) -> bool
        ensures { result ≡ infinite format (pattern self) };

    fn is_nan(self) -> bool
        ensures { result ≡ nan_bits format (pattern self) };

    // The key of a pattern: where there is no NaN, the order of the keys is that of IEEE 754.
    fn key(p: Self::Pattern) -> Self::Pattern
        ensures { Self.Pattern.number result ≡ float_key format (Self.Pattern.number p) };
}

impl Float for f32 {
    type Pattern = u32;

    ghost format = { binary32 };

    ghost of_pattern = { of_bits binary32 };

    ghost pattern = { to_bits binary32 };

    fn of(p: u32) -> f32 {
        if f32::nan_pattern(p) {
            f32::NAN
        } else {
            f32::from_bits(p)
        }
    }

    // `to_bits` is undefined at a NaN, so that is tested for.
    fn bits(self) -> u32 {
        if Float::is_nan(self) {
            0x7fc0_0000
        } else {
            self.to_bits()
        }
    }

    // Doubled, the pattern has lost its sign, and one addition and one comparison tell it.
    fn nan_pattern(p: u32) -> bool {
        2 * (p % 0x8000_0000) > 0xff00_0000
    }

    fn finite_pattern(p: u32) -> bool {
        2 * (p % 0x8000_0000) < 0xff00_0000
    }

    fn at_most(self, other: f32) -> bool {
        self <= other
    }

    // Nothing is above the upper infinity and nothing below the lower one, so three comparisons tell it.
    fn finite_at_most(self, other: f32) -> bool {
        f32::NEG_INFINITY < self && self <= other && other < f32::INFINITY
    }

    fn is_infinite(self) -> bool {
        self == f32::INFINITY || self == f32::NEG_INFINITY
    }

    // A NaN alone differs from itself.
    fn is_nan(self) -> bool {
        self != self
    }

    fn key(p: u32) -> u32 {
        if p < 0x8000_0000 {
            0x8000_0000 + p
        } else {
            0x8000_0000 - (p - 0x8000_0000)
        }
    }
}

// The same of 64 bits.
impl Float for f64 {
    type Pattern = u64;

    ghost format = { binary64 };

    ghost of_pattern = { of_bits binary64 };

    ghost pattern = { to_bits binary64 };

    fn of(p: u64) -> f64 {
        if f64::nan_pattern(p) {
            f64::NAN
        } else {
            f64::from_bits(p)
        }
    }

    fn bits(self) -> u64 {
        if Float::is_nan(self) {
            0x7ff8_0000_0000_0000
        } else {
            self.to_bits()
        }
    }

    fn nan_pattern(p: u64) -> bool {
        2 * (p % 0x8000_0000_0000_0000) > 0xffe0_0000_0000_0000
    }

    fn finite_pattern(p: u64) -> bool {
        2 * (p % 0x8000_0000_0000_0000) < 0xffe0_0000_0000_0000
    }

    fn at_most(self, other: f64) -> bool {
        self <= other
    }

    fn finite_at_most(self, other: f64) -> bool {
        f64::NEG_INFINITY < self && self <= other && other < f64::INFINITY
    }

    fn is_infinite(self) -> bool {
        self == f64::INFINITY || self == f64::NEG_INFINITY
    }

    fn is_nan(self) -> bool {
        self != self
    }

    fn key(p: u64) -> u64 {
        if p < 0x8000_0000_0000_0000 {
            0x8000_0000_0000_0000 + p
        } else {
            0x8000_0000_0000_0000 - (p - 0x8000_0000_0000_0000)
        }
    }
}
