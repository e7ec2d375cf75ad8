// The lines of a file: how far text goes, where a CR LF pair stands, and how many lines there are from a place on.
#![tactic(auto)]

ghost use Rattle.std.specs.Prelude.{◌≡◌, ◌+◌, ◌≤◌, length, take, drop};
ghost use Rattle.format.specs.Bytes.{every, is_text, begins_pair};
ghost use Rattle.format.specs.Lines.{lines};
ghost use Rattle.lines.specs.Scan.{text_length, scanned};

// No upper bound is tested: a byte is at most 255.
fn is_text(b: u8) -> bool
    ensures { result ≡ is_text b }
{
    b' ' <= b
}

// Whether each byte is text. With no branch on a byte, the compiler tests many at once where it knows how many there are.
fn short_text(part: &[u8]) -> bool
    ensures { result ≡ every is_text part.now }
{
    let mut good = true;
    for b in part {
        good &= is_text(*b);
    }
    good
}

// How many bytes are tested at once.
const BLOCK: usize = 32;

// Whether the 32 bytes from a place on are text.
fn block_text(part: &[u8], at: usize) -> bool
    requires { at + 32 ≤ length part.now }
    ensures { result ≡ every is_text (take 32 (drop at part.now)) }
{
    short_text(&part[at..at + BLOCK])
}

// Whether each byte is text, in blocks of 32, of which the last two may overlap.
pub fn all_text(part: &[u8]) -> bool
    ensures { result ≡ every is_text part.now }
{
    if part.len() < BLOCK {
        return short_text(part);
    }
    let last = part.len() - BLOCK;
    let mut good = block_text(part, last);
    for i in (0..last).step_by(BLOCK) {
        good &= block_text(part, i);
    }
    good
}

// Whether a CR LF pair stands at a place.
pub fn pair_at(file: &[u8], at: usize) -> bool
    ensures { result ≡ begins_pair (drop at file.now) }
{
    matches!(file.get(at..), Some([b'\r', b'\n', ..]))
}

// The end of the text that starts at a place: the first byte from there on that is not text, or the file's end.
pub fn text_end(file: &[u8], at: usize) -> usize
    requires { at ≤ length file.now }
    ensures value { result ≡ at + text_length (drop at file.now) }
    ensures upper_bound { result ≤ length file.now }
{
    let rest = &file[at..];
    at + rest.iter().position(|b| !is_text(*b)).unwrap_or(rest.len())
}

// How many lines there are from a place on, with so many before it; an error is how many there are before the fault. Each has two bytes at
// least, so their number fits. The loop is over a place, which goes on by a whole line.
pub fn lines_from(file: &[u8], at: usize, before: usize) -> Result<usize, usize>
    requires { (at ≤ length file.now) × (before ≤ at) }
    ensures { result ≡ scanned before (lines (drop at file.now)) }
{
    let mut n = before;
    let mut i = at;
    while i < file.len() {
        let end = text_end(file, i);
        if pair_at(file, end) {
            n += 1;
            i = end + 2;
        } else {
            return Err(n);
        }
    }
    Ok(n)
}
