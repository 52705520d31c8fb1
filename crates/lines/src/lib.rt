// Text and lines of decimal numbers, put into a lent buffer.
#![tactic(auto)]

ghost use Rattle.std.specs.Prelude.{◌≡◌, [], ◌∷◌, ◌++◌, ◌+◌, ◌≤◌, ◌<◌, length};
ghost use Rattle.lists.specs.Put.{put};
ghost use Rattle.lines.specs.Decimal.{decimal};
ghost use Rattle.lines.specs.Line.{line};

// The bytes of a field, at most: the 10 digits of a number of 32 bits, and the byte behind it.
pub const FIELD: usize = 11;

// Some text into a buffer from a place on.
#[tactic(auto, unfolding(lists::specs::Put::put))]
pub fn put_text(out: &mut [u8], at: usize, text: &[u8])
    requires { at + length text.now ≤ length out.old }
    ensures { out.new ≡ put at text.now out.old }
{
    out[at..at + text.len()].copy_from_slice(text);
}

// A 64-bit number has at most so many digits.
const MOST_DIGITS: usize = 20;

// How many digits a number has.
fn places(n: u64) -> usize
    ensures { result ≡ length (decimal n) }
{
    let mut limit: u64 = 1;
    for k in 1..MOST_DIGITS {
        limit *= 10;
        if n < limit {
            return k;
        }
    }
    MOST_DIGITS
}

// A number in decimal from a place on, and a byte behind it; answers the place behind both.
pub fn put_number(out: &mut [u8], at: usize, n: u64, after: u8) -> usize
    requires { at + length (decimal n) < length out.old }
    ensures value { result ≡ at + length (decimal n) + 1 }
    ensures out_after { out.new ≡ put at (decimal n ++ (after ∷ [])) out.old }
{
    let end = at + places(n);
    out[end] = after;
    let mut i = end;
    let mut rest = n;
    // Two digits a division, as dividing is the dear part; then the first, if it is left.
    while at + 1 < i {
        let two = rest % 100;
        out[i - 1] = b'0' + (two % 10) as u8;
        out[i - 2] = b'0' + (two / 10) as u8;
        i -= 2;
        rest /= 100;
    }
    if at < i {
        out[at] = b'0' + rest as u8;
    }
    end + 1
}

// Numbers in a line from a place on, one at least; answers the place behind it.
pub fn put_line(out: &mut [u8], at: usize, numbers: &[u64]) -> usize
    requires { (0 < length numbers.now) × (at + length (line numbers.now) ≤ length out.old) }
    ensures value { result ≡ at + length (line numbers.now) }
    ensures out_after { out.new ≡ put at (line numbers.now) out.old }
{
    let last = numbers.len() - 1;
    let mut next = at;
    for n in &numbers[..last] {
        next = put_number(out, next, *n, b' ');
    }
    put_number(out, next, numbers[last], b'\n')
}
