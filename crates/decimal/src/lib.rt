// Decimal numbers, read from text and written to it. Decimal means no leading zeros (0 alone is fine) and a minus only
// before a nonzero number.
#![tactic(auto)]

ghost use Rattle.std.specs.Prelude.{◌≡◌, ◌+◌, ◌-◌, ◌^◌, ◌≤◌, ◌<◌, length};
ghost use Rattle.std.proofs.lemmas.List.Edits.{sets};
ghost use Rattle.decimal.specs.Decimal.{decimal, starts_well};
ghost use Rattle.decimal.specs.Read.{read_number, read_next, read_signed, signed32, signed64};
ghost use Rattle.decimal.specs.Write.{put};

// The whole text as a number of at most 2^64 - 1.
pub fn read_u64(text: &[u8]) -> Option<u64>
    ensures { result ≡ read_number (2 ^ 64 - 1) text.now }
{
    read_at_most(text, u64::MAX)
}

// The whole text as a number of at most `most`.
pub fn read_at_most(text: &[u8], most: u64) -> Option<u64>
    ensures { result ≡ read_number most text.now }
{
    if !starts_well(text) {
        return None;
    }
    let mut value: u64 = 0;
    for byte in text {
        value = next(most, value, *byte)?;
    }
    Some(value)
}

// The whole text as a number that fits 32 bits of two's complement.
pub fn read_i32(text: &[u8]) -> Option<i32>
    ensures { result ≡ signed32 text.now }
{
    let number = read_signed(text, 0x8000_0000)?;
    Some(number as i32)
}

// The same of 64 bits.
pub fn read_i64(text: &[u8]) -> Option<i64>
    ensures { result ≡ signed64 text.now }
{
    read_signed(text, 0x8000_0000_0000_0000)
}

// How many digits a number has.
pub fn digits(n: u64) -> usize
    ensures { result ≡ length (decimal n) }
{
    let mut count: usize = 1;
    let mut rest = n;
    while 9 < rest {
        rest /= 10;
        count += 1;
    }
    count
}

// The digits go to that place of the buffer if it has room for all of them; else the buffer stays as it was. The answer
// is how many they are, in either case.
pub fn write_u64(n: u64, out: &mut [u8], at: usize) -> usize
    ensures { (result ≡ length (decimal n)) × (out.new ≡ put out.old at (decimal n)) }
{
    let count = digits(n);
    let room = out.len();
    if room < at {
        return count;
    }
    if room - at < count {
        return count;
    }
    fill(n, out, at, count);
    count
}

// Not empty, and no zero before another byte.
fn starts_well(text: &[u8]) -> bool
    ensures { result ≡ starts_well text.now }
{
    match text {
        [] => false,
        [_] => true,
        [first, ..] => *first != b'0',
    }
}

// One more byte after a value that was read so far.
fn next(most: u64, value: u64, byte: u8) -> Option<u64>
    ensures { result ≡ read_next most value byte }
{
    if !byte.is_ascii_digit() {
        return None;
    }
    let digit = (byte - b'0') as u64;
    let next = value.checked_mul(10)?.checked_add(digit)?;
    if next <= most { Some(next) } else { None }
}

// Two's complement has the numbers below its half, and the negative ones down to that half.
fn read_signed(text: &[u8], half: u64) -> Option<i64>
    requires { (0 < half) × (half ≤ 2 ^ 63) }
    ensures { result ≡ read_signed half text.now }
{
    match text.strip_prefix(b"-") {
        Some(digits) => {
            let below = read_at_most(digits, half)?;
            let past = below.checked_sub(1)?;
            Some(-1 - past as i64)
        }
        None => {
            let number = read_at_most(text, half - 1)?;
            Some(number as i64)
        }
    }
}

// From the last digit to the first.
fn fill(n: u64, out: &mut [u8], at: usize, count: usize)
    requires { (count ≡ length (decimal n)) × (at + count ≤ length out.old) }
    ensures { out.new ≡ sets out.old at (decimal n) }
{
    let mut rest = n;
    for place in (at + 1..at + count).rev() {
        out[place] = digit(rest % 10);
        rest /= 10;
    }
    out[at] = digit(rest);
}

// The byte of a digit.
fn digit(d: u64) -> u8
    requires { d < 10 }
    ensures { result ≡ 48 + d }
{
    48 + d as u8
}
