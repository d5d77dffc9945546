// Lines and parts of a text, by a cursor; and a text written piece by piece.
#![tactic(auto)]

ghost use Rattle.std.specs.Prelude.{◌≡◌, ◌+◌, ◌-◌, ◌≤◌, length, drop};
ghost use Rattle.std.proofs.lemmas.List.Edits.{sets};
ghost use Rattle.text.specs.Text.{piece_length, same};
ghost use Rattle.text.specs.Cursor.{piece_from, after};
ghost use Rattle.text.specs.Write.{field, seen};

// Where the piece that starts at `from` ends: at the next separator, or with the text.
pub fn piece_end(text: &[u8], from: usize, separator: u8) -> usize
    ensures { (result ≡ from + piece_length separator (drop from text.now))
        × (result ≤ from + length text.now) }
{
    for end in from..text.len() {
        if text[end] == separator {
            return end;
        }
    }
    from.max(text.len())
}

// The piece from a place to the next separator, or to the end; nothing past the end.
pub fn piece_from(text: &[u8], at: usize, separator: u8) -> &[u8]
    ensures { result.now ≡ piece_from separator text.now at }
{
    if text.len() < at {
        return &text[..0];
    }
    let end = piece_end(text, at, separator);
    &text[at..end]
}

// Past the separator that stands at `end`, if one does: the end of the text has none.
pub fn after(text: &[u8], end: usize) -> usize
    ensures { result ≡ after text.now end }
{
    if end < text.len() { end + 1 } else { end }
}

// Are two texts byte for byte the same?
#[tactic(auto, using(crate::proofs::Compared::pointwise_same))]
pub fn same(a: &[u8], b: &[u8]) -> bool
    ensures { result ≡ same a.now b.now }
{
    a == b
}

// A word goes to a place of a text, of which the buffer has the bytes from byte `from` on: the word's bytes that fall
// into the buffer are stored. The answer is how many bytes the word has, in either case.
pub fn write(word: &[u8], from: usize, out: &mut [u8], at: usize) -> usize
    ensures { (result ≡ length word.now)
        × (out.new ≡ seen from out.old at word.now) }
{
    let skipped = from.saturating_sub(at).min(word.len());
    let place = at.saturating_sub(from).min(out.len());
    let count = (word.len() - skipped).min(out.len() - place);
    out[place..place + count].copy_from_slice(&word[skipped..skipped + count]);
    word.len()
}

// The same of a number, and the byte after it.
pub fn write_field(n: u64, end: u8, from: usize, out: &mut [u8], at: usize) -> usize
    ensures { (result ≡ length (field n end))
        × (out.new ≡ seen from out.old at (field n end)) }
{
    let place = at.saturating_sub(from);
    // nothing of it is stored
    if out.len() <= place {
        return decimal::digits(n) + 1;
    }
    if from <= at && 21 <= out.len() - place {
        return put_field(n, end, out, place);
    }
    let mut bytes = [0u8; 21];
    let count = put_field(n, end, &mut bytes, 0);
    write(&bytes[..count], from, out, at)
}

// Where there is room for any number.
fn put_field(n: u64, end: u8, out: &mut [u8], at: usize) -> usize
    requires { at + 21 ≤ length out.old }
    ensures { (result ≡ length (field n end)) × (out.new ≡ sets out.old at (field n end)) }
{
    let count = decimal::write_u64(n, out, at);
    let last = at + count;
    out[last] = end;
    count + 1
}
