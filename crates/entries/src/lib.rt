// The entries of a list: whether tile offsets, var offsets, tile sizes and starts in a buffer keep to their rules.
#![tactic(auto)]

ghost use Rattle.std.specs.Prelude.{◌≡◌, refl, ℕ, ◌+◌, ◌*◌, ◌≤◌, Bool, length};
ghost use Rattle.answers.specs.Told.{told, number_of};
ghost use Rattle.answers.specs.declared.Reason.{Reason};
ghost use Rattle.order.specs.Little.{little};
ghost use Rattle.lists.specs.Lists.{entry, entries_refusal};
ghost use Rattle.lists.specs.Offsets.{told_tiles, offset_breaks, offsets_refusal, offsets_answer, EndToEnd, Extents};
ghost use Rattle.lists.specs.VarOffsets.{var_breaks, var_offsets_refusal, var_offsets_answer, starts_refusal};
ghost use Rattle.lists.specs.Sizes.{told_sum, size_breaks, sizes_answer};
ghost use Rattle.entries.specs.Code.Rules.{before, so_far, so_far-none, Stepped, Says, entries_each};

use answers::{Reason, Refused};

// How many tiles an accepted list of tile offsets has, of a data file of `size` bytes, S.
pub fn open_offsets(body: &[u8], tiles: u64, size: u64) -> Result<u64, Refused>
    ensures answer { told_tiles result ≡ offsets_answer tiles size body.now }
    ensures extents { (told_tiles result).number ≡ 0 → Extents tiles size body.now }
{
    check_offsets(body, tiles, size)?;
    Ok(tiles)
}

// The same of var offsets, where a tile may have no bytes.
pub fn open_var_offsets(body: &[u8], tiles: u64, size: u64) -> Result<u64, Refused>
    ensures answer { told_tiles result ≡ var_offsets_answer tiles size body.now }
    ensures extents { (told_tiles result).number ≡ 0 → EndToEnd tiles size body.now }
{
    check_var_offsets(body, tiles, size)?;
    Ok(tiles)
}

// What tile offsets are refused for.
pub fn check_offsets(body: &[u8], tiles: u64, size: u64) -> Result<(), Refused>
    ensures { told result ≡ offsets_refusal tiles size body.now }
{
    check_entries(body, tiles, Offsets { size })?;
    Ok(())
}

// The same of var offsets.
pub fn check_var_offsets(body: &[u8], tiles: u64, size: u64) -> Result<(), Refused>
    ensures { told result ≡ var_offsets_refusal tiles size body.now }
{
    check_entries(body, tiles, VarOffsets { size })?;
    Ok(())
}

// The starts of `tiles` values in a buffer of `size` bytes, from byte 8 of the body on, whatever stands around them.
pub fn check_starts(body: &[u8], tiles: u64, size: u64) -> Result<(), Refused>
    ensures { told result ≡ starts_refusal tiles size body.now }
{
    let length = body.len() as u64;
    Reason::Bytes.when(length / 8 <= tiles, length)?;
    scan(body, tiles as usize, VarOffsets { size })?;
    Ok(())
}

// Tile sizes: their sum, or the entry that takes it past 2^64 - 1.
pub fn open_sizes(body: &[u8], tiles: u64) -> Result<u64, Refused>
    ensures { told_sum result ≡ sizes_answer tiles body.now }
{
    check_entries(body, tiles, Sizes)
}

// What the entries of a list keep to, one after the other.
trait Rule: Copy {
    // whether entry i breaks it
    ghost breaks: { Self → (ℕ → ℕ) → ℕ → Bool };

    // what comes to entry i from those before it
    ghost comes: { Self → (ℕ → ℕ) → ℕ → ℕ };

    ghost REASON: { Reason };

    // Why a list that breaks it is refused.
    const REASON: Reason;

    // What goes on to the next entry from entry x at a place, unless x breaks the rule.
    fn next(&self, at: usize, before: u64, x: u64) -> Option<u64>
        ensures { Stepped (breaks self.now) (comes self.now) at before x result };

    // nothing comes to the first entry
    ghost begins: { (rule : Self) (g : ℕ → ℕ) → comes rule g 0 ≡ 0 };
}

// The first is 0, each later one above the one before, all below `size`.
#[derive(Clone, Copy)]
struct Offsets {
    size: u64,
}

// The first offset, at 8, has a rule of its own, and the compiler takes that turn out of the loop. The test against the
// size comes first: in the other order the compiled loop has a branch that can straddle two cache lines; linked so, it
// was measured 1.3 to 3 times slower.
impl Rule for Offsets {
    ghost breaks = { λ rule. offset_breaks rule.size };

    ghost comes = { λ _. before };

    ghost REASON = { Reason.TileOffsets };

    const REASON: Reason = Reason::TileOffsets;

    fn next(&self, at: usize, before: u64, x: u64) -> Option<u64> {
        let broken = self.size <= x || if at == 8 { x != 0 } else { x <= before };
        if broken { None } else { Some(x) }
    }

    ghost begins = { λ _ _. refl };
}

// The first is 0, none below the one before, none above `size`.
#[derive(Clone, Copy)]
struct VarOffsets {
    size: u64,
}

// The tests stand in the same order.
impl Rule for VarOffsets {
    ghost breaks = { λ rule. var_breaks rule.size };

    ghost comes = { λ _. before };

    ghost REASON = { Reason.TileOffsets };

    const REASON: Reason = Reason::TileOffsets;

    fn next(&self, at: usize, before: u64, x: u64) -> Option<u64> {
        let broken = self.size < x || if at == 8 { 0 < x } else { x < before };
        if broken { None } else { Some(x) }
    }

    ghost begins = { λ _ _. refl };
}

// Their sum fits.
#[derive(Clone, Copy)]
struct Sizes;

impl Rule for Sizes {
    ghost breaks = { λ _. size_breaks };

    ghost comes = { λ _. so_far };

    ghost REASON = { Reason.SizesSum };

    const REASON: Reason = Reason::SizesSum;

    fn next(&self, _at: usize, before: u64, x: u64) -> Option<u64> {
        before.checked_add(x)
    }

    ghost begins = { λ _ g. so_far-none g };
}

// A whole list: what came past the last entry, for sizes their sum.
fn check_entries<R: Rule>(body: &[u8], tiles: u64, rule: R) -> Result<u64, Refused>
    ensures { Says (entries_refusal (R.breaks rule (entry body.now)) (number_of R.REASON) tiles body.now)
        (R.comes rule (entry body.now) tiles) result }
{
    lists::check_list(body, tiles, 8)?;
    scan(body, tiles as usize, rule)
}

// Goes through the entries until one breaks the rule. The place is the only counter: a second one, the entry's number,
// costs 15 % of the speed.
fn scan<R: Rule>(body: &[u8], n: usize, rule: R) -> Result<u64, Refused>
    requires { 8 + 8 * n ≤ length body.now }
    ensures { Says (entries_each (R.breaks rule (entry body.now)) (number_of R.REASON) n)
        (R.comes rule (entry body.now) n) result }
{
    let end = 8 + 8 * n;
    let mut at = 8;
    let mut before = 0;
    loop {
        if end <= at {
            break Ok(before);
        }
        let x = word(body, at);
        match rule.next(at, before, x) {
            Some(next) => before = next,
            None => break Err(R::REASON.at(at as u64)),
        }
        at += 8;
    }
}

// The eight bytes at a place are all there. A part of eight bytes lets the compiler drop the tests of `u64_at`.
fn word(body: &[u8], at: usize) -> u64
    requires { at + 8 ≤ length body.now }
    ensures { result ≡ little body.now at 8 }
{
    let end = at + 8;
    order::u64_at(&body[at..end], 0)
}
