// A place as a line and a column, both from 1. A place past the end counts as the end. A line ends with CR, with LF, or with the two
// together (W3C XML 1.0, section 2.11).
#![tactic(auto)]

ghost use Rattle.std.specs.Prelude.{◌≡◌, count_by, not, reverse, take, take_while};
ghost use Rattle.spec.specs.Reading.Utf8.{tail};
ghost use Rattle.lines.specs.Lines.{ends_line, on_line, line, column};

use utf8::is_tail;

// Whether the byte b, which a stands before, ends a line. After CR an LF ends none: the CR did.
fn is_line_end(a: u8, b: u8) -> bool
    ensures { result ≡ ends_line a b }
{
    (b == b'\r') | (b == b'\n') & !(a == b'\r')
}

// A byte that stands on a line, and neither ends it nor belongs to its end.
fn is_on_line(b: u8) -> bool
    ensures { result ≡ on_line b }
{
    !((b == b'\r') | (b == b'\n'))
}

// The bytes before the place.
fn before(text: &[u8], at: usize) -> &[u8]
    ensures { result.now ≡ take at text.now }
{
    &text[..at.min(text.len())]
}

// One more than the lines that end before the place.
pub fn line_of(text: &[u8], at: usize) -> usize
    ensures { result ≡ line text.now at }
{
    let mut n: usize = 1;
    let mut last: u8 = 0;
    for &b in before(text, at) {
        if is_line_end(last, b) {
            n += 1;
        }
        last = b;
    }
    n
}

// The characters after the text's last CR or LF, counted back from its end, each at the byte that begins it.
fn last_characters(text: &[u8]) -> usize
    ensures { result ≡ count_by (λ b. not (tail b)) (take_while on_line (reverse text.now)) }
{
    text.iter()
        .rev()
        .take_while(|&&b| is_on_line(b))
        .filter(|&&b| !is_tail(b))
        .count()
}

// One more than the characters between the last CR or LF before the place, or the text's start, and the place.
pub fn column_of(text: &[u8], at: usize) -> usize
    ensures { result ≡ column text.now at }
{
    1 + last_characters(before(text, at))
}
