// Which integers do bit patterns stand for, and in which order? Comparisons whose contracts speak of the patterns
// alone.
#![tactic(auto)]

ghost use Rattle.std.specs.Prelude.{◌≡◌, ℕ, ◌%◌, ◌^◌, leb};
ghost use Rattle.std.specs.Int.{w32, w64};
ghost use Rattle.std.proofs.Common.{to_z, of_z};
ghost use Rattle.order.specs.Key.{signed_key};

use order::Word;

// A whole number that a range may end at, and its bit pattern.
pub trait Int: Copy {
    type Pattern: Word;

    ghost of_pattern: { ℕ → Self };

    ghost pattern: { Self → ℕ };

    ghost key: { ℕ → ℕ };

    // The number that a pattern stands for.
    fn of(p: Self::Pattern) -> Self
        ensures { result ≡ of_pattern (Self.Pattern.number p) };

    // The pattern of a number.
    fn bits(self) -> Self::Pattern
        ensures { Self.Pattern.number result ≡ pattern self };

    // Is this at most another?
    fn at_most(self, other: Self) -> bool
        ensures { result ≡ leb (key (pattern self)) (key (pattern other)) };

    // The key of a pattern: the order of the keys is that of the numbers.
    fn key(p: Self::Pattern) -> Self::Pattern
        ensures { Self.Pattern.number result ≡ key (Self.Pattern.number p) };
}

// In two's complement.
#[tactic(auto, unfolding(order::specs::Key::signed_key))]
impl Int for i32 {
    type Pattern = u32;

    ghost of_pattern = { to_z w32 };

    ghost pattern = { of_z w32 };

    ghost key = { signed_key w32 };

    fn of(p: u32) -> i32 {
        p.cast_signed()
    }

    fn bits(self) -> u32 {
        self.cast_unsigned()
    }

    fn at_most(self, other: i32) -> bool {
        self <= other
    }

    fn key(p: u32) -> u32 {
        p.wrapping_add(0x8000_0000)
    }
}

// The same of 64 bits.
#[tactic(auto, unfolding(order::specs::Key::signed_key))]
impl Int for i64 {
    type Pattern = u64;

    ghost of_pattern = { to_z w64 };

    ghost pattern = { of_z w64 };

    ghost key = { signed_key w64 };

    fn of(p: u64) -> i64 {
        p.cast_signed()
    }

    fn bits(self) -> u64 {
        self.cast_unsigned()
    }

    fn at_most(self, other: i64) -> bool {
        self <= other
    }

    fn key(p: u64) -> u64 {
        p.wrapping_add(0x8000_0000_0000_0000)
    }
}

// A number without a sign is its own pattern, and its own key.
impl Int for u64 {
    type Pattern = u64;

    ghost of_pattern = { λ p. p };

    ghost pattern = { λ x. x };

    ghost key = { λ p. p };

    fn of(p: u64) -> u64 {
        p
    }

    fn bits(self) -> u64 {
        self
    }

    fn at_most(self, other: u64) -> bool {
        self <= other
    }

    fn key(p: u64) -> u64 {
        p
    }
}

// The lowest four bytes of a number.
pub fn low_four(p: u64) -> u32
    ensures { result ≡ p % 256 ^ 4 }
{
    u32::lowest(p)
}
