// What do bytes stand for? Little-endian numbers, read and stored; and bytes that are copied. The order of bit patterns is defined here too, for
// the crates that compare integers and floats.
#![tactic(auto)]

ghost use Rattle.std.specs.Prelude.{◌≡◌, ℕ, cond, ◌+◌, ◌-◌, ◌%◌, ◌^◌, ◌≤◌, ◌<◌, leb, length, take, get_or};
ghost use Rattle.std.proofs.Common.{lit≤};
ghost use Rattle.std.proofs.lemmas.List.Edits.{sets};
ghost use Rattle.order.specs.Little.{little, first_of_two, second_of_two, bytes_of};

// The byte at a place. A byte past the end counts 0.
pub fn byte_at(s: &[u8], at: usize) -> u64
    ensures { result ≡ get_or s.now at 0 }
{
    if at < s.len() { wide64(s[at]) } else { 0 }
}

// The four bytes at a place. A byte past the end counts 0.
pub fn u32_at(s: &[u8], at: usize) -> u32
    ensures { result ≡ little s.now at 4 }
{
    word_at(s, at)
}

// The eight bytes at a place. A byte past the end counts 0.
pub fn u64_at(s: &[u8], at: usize) -> u64
    ensures { result ≡ little s.now at 8 }
{
    word_at(s, at)
}

// The four bytes of a number go to a place, if they all fit there.
pub fn put_u32(out: &mut [u8], at: usize, x: u32)
    ensures { out.new ≡ cond (leb (at + 4) (length out.old))
        (sets out.old at (bytes_of 4 x)) out.old }
{
    put(out, at, x);
}

// The eight bytes of a number, likewise.
pub fn put_u64(out: &mut [u8], at: usize, x: u64)
    ensures { out.new ≡ cond (leb (at + 8) (length out.old))
        (sets out.old at (bytes_of 8 x)) out.old }
{
    put(out, at, x);
}

// Bytes go to a place, if they all fit there.
pub fn copy(out: &mut [u8], at: usize, bytes: &[u8])
    ensures { out.new ≡ cond (leb (at + length bytes.now) (length out.old))
        (sets out.old at bytes.now) out.old }
{
    let n = out.len();
    if at <= n {
        if bytes.len() <= n - at {
            store_all(out, at, bytes);
        }
    }
}

// A number of four bytes or of eight.
pub trait Word: Copy {
    const SIZE: usize;

    ghost SIZE: { ℕ };

    ghost number: { Self → ℕ };

    // The number of the first of eight bytes, as many as it has, the lowest first.
    fn of_le(bytes: [u8; 8]) -> Self
        ensures { number result ≡ little bytes 0 SIZE };

    // Its bytes, the lowest first, and others after them.
    fn to_le(self) -> [u8; 8]
        ensures { take SIZE result ≡ bytes_of SIZE (number self) };

    // The lowest bytes of a number.
    fn lowest(x: u64) -> Self
        ensures { number result ≡ x % 256 ^ SIZE };

    // Whether two of them, one after the other, are there from a place of n bytes on.
    fn two_fit(n: usize, at: usize) -> bool
        ensures { result ≡ leb (at + (SIZE + SIZE)) n };

    ghost small: { SIZE ≤ 8 };
}

impl Word for u32 {
    const SIZE: usize = 4;

    ghost SIZE = { 4 };

    ghost number = { λ x. x };

    fn of_le(bytes: [u8; 8]) -> u32 {
        u32::from_le_bytes([bytes[0], bytes[1], bytes[2], bytes[3]])
    }

    fn to_le(self) -> [u8; 8] {
        (self as u64).to_le_bytes()
    }

    ghost small = { lit≤ tt };

    fn lowest(x: u64) -> u32 {
        (x % 0x1_0000_0000) as u32
    }

    // The compiler makes one of the two comparisons itself, where it knows that a box has a multiple of eight bytes.
    fn two_fit(n: usize, at: usize) -> bool {
        at <= n && 8 <= n - at
    }
}

impl Word for u64 {
    const SIZE: usize = 8;

    ghost SIZE = { 8 };

    ghost number = { λ x. x };

    fn of_le(bytes: [u8; 8]) -> u64 {
        u64::from_le_bytes([
            bytes[0], bytes[1], bytes[2], bytes[3], bytes[4], bytes[5], bytes[6], bytes[7],
        ])
    }

    fn to_le(self) -> [u8; 8] {
        self.to_le_bytes()
    }

    ghost small = { lit≤ tt };

    fn lowest(x: u64) -> u64 {
        x
    }

    // One comparison tells it.
    fn two_fit(n: usize, at: usize) -> bool {
        16 <= bytes_left(n, at)
    }
}

// The two ends of a range.
#[derive(Clone, Copy)]
pub struct Pair<W> {
    pub low: W,
    pub high: W,
}

// Two numbers, one after the other. Where their bytes are not all there, both count 0: with nothing else to do there, a
// caller's loop takes the reads in whole.
pub fn pair_at<W: Word>(s: &[u8], at: usize) -> Pair<W>
    ensures { (W.number result.low ≡ first_of_two s.now at W.SIZE) × (W.number result.high ≡ second_of_two s.now at W.SIZE) }
{
    if W::two_fit(s.len(), at) {
        return Pair {
            low: there(s, at),
            high: there(s, at + W::SIZE),
        };
    }
    Pair {
        low: W::lowest(0),
        high: W::lowest(0),
    }
}

// The number at a place. A byte past the end counts 0.
fn word_at<W: Word>(s: &[u8], at: usize) -> W
    ensures { W.number result ≡ little s.now at W.SIZE }
{
    let n = s.len();
    if at <= n {
        if W::SIZE <= n - at {
            there(s, at)
        } else {
            W::lowest(rest(s, at))
        }
    } else {
        W::lowest(0)
    }
}

// All of its bytes are there. The length of the part is known where this is taken in, and it compiles to one load; a copy
// of the part does not.
fn there<W: Word>(s: &[u8], at: usize) -> W
    requires { at + W.SIZE ≤ length s.now }
    ensures { W.number result ≡ little s.now at W.SIZE }
{
    let part = &s[at..at + W::SIZE];
    W::of_le([
        byte(part, 0),
        byte(part, 1),
        byte(part, 2),
        byte(part, 3),
        byte(part, 4),
        byte(part, 5),
        byte(part, 6),
        byte(part, 7),
    ])
}

// A byte of a part; past its end 0.
fn byte(part: &[u8], i: usize) -> u8
    ensures { result ≡ get_or part.now i 0 }
{
    if i < part.len() { part[i] } else { 0 }
}

// The room for all of its bytes is there. This compiles to one store.
fn store<W: Word>(x: W, out: &mut [u8], at: usize)
    requires { at + W.SIZE ≤ length out.old }
    ensures { out.new ≡ sets out.old at (bytes_of W.SIZE (W.number x)) }
{
    let bytes = x.to_le();
    out[at..at + W::SIZE].copy_from_slice(&bytes[..W::SIZE]);
}

// The room for all of the bytes is there. A method that copies a part of any length asks the C library for `memmove`, which
// the library needs nowhere else; for this loop the compiler asks for `memcpy`.
fn store_all(out: &mut [u8], at: usize, bytes: &[u8])
    requires { at + length bytes.now ≤ length out.old }
    ensures { out.new ≡ sets out.old at bytes.now }
{
    for i in 0..bytes.len() {
        out[at + i] = bytes[i];
    }
}

// The bytes of a number go to a place, if they all fit there.
fn put<W: Word>(out: &mut [u8], at: usize, x: W)
    ensures { out.new ≡ cond (leb (at + W.SIZE) (length out.old))
        (sets out.old at (bytes_of W.SIZE (W.number x))) out.old }
{
    let n = out.len();
    if at <= n {
        if W::SIZE <= n - at {
            store(x, out, at);
        }
    }
}

// How many of n bytes are left from a place on.
fn bytes_left(n: usize, at: usize) -> usize
    ensures { result ≡ n - at }
{
    if at < n { n - at } else { 0 }
}

// Fewer than eight bytes are left: the number of those, which is that of eight. Taken in where reads stand in a loop, it
// would take registers from them.
#[inline(never)]
fn rest(s: &[u8], at: usize) -> u64
    requires { (at ≤ length s.now) × (length s.now < at + 8) }
    ensures { result ≡ little s.now at 8 }
{
    let mut number: u64 = 0;
    for i in (at..s.len()).rev() {
        number = wide64(s[i]) + 256 * number;
    }
    number
}

// A byte by its contract alone: an index that is cast in place would ask each time that the byte fits.
fn wide64(x: u8) -> u64
    ensures { (result ≡ x) × (result < 256) }
{
    x as u64
}
