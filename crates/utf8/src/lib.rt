// UTF-8 (RFC 3629): the code point at a place, whether a text is UTF-8, and where it stops being so.
#![tactic(auto)]

mod blocks;

ghost use Rattle.std.specs.Prelude.{◌≡◌, ◌<◌, ◌≤◌, true, false, ◌||◌, ◌+◌, ◌*◌, ◌%◌, length, drop, get_or};
ghost use Rattle.spec.specs.Reading.Utf8.{tail, two, three, four, decode4, decode1};
ghost use Rattle.spec.specs.Reading.Readers.{stop_of};
ghost use Rattle.spec.specs.Reading.Source.{utf8};
ghost use Rattle.utf8.specs.Seen.{seen, accepts};
ghost use Rattle.utf8.specs.Window.{due, off, InPlace, Padded};

use blocks::{cut, skip_blocks};

// So much is looked at in windows at a time where an accent stands alone: four blocks, or what a cut leaves of them.
const FEW: usize = 67;
// And so much where more of them stand: seven bytes more than whole turns of one loop over all its windows, since these begin with the
// fourth byte, the last one stands in no vector, and a cut takes up to three bytes off.
const MANY: usize = 4103;
// From here on that loop is taken, of 32 windows a turn. By blocks such a part takes a tenth longer; by the loop a part of another length
// has up to 32 windows left over, one at a time, by which a text of 34 bytes takes five times as long.
const LONG: usize = 4100;
// A block has so many windows, which fill a vector. By 32 or 64 windows a turn long parts gain little, and by 64 short ones lose.
const STEP: usize = 16;
// And so many bytes.
const BLOCK: usize = 19;
// A text as short as this is decoded as soon as a block is set up.
const SHORT: usize = 5;
// After so much ASCII in a row an accent stands alone.
const CALM: usize = 128;

// A code point and its width in bytes.
#[derive(Clone, Copy, Debug, PartialEq, Eq)]
pub struct Point {
    pub code: u32,
    pub width: usize,
}

// The byte at a place, or 0 past the end.
pub fn byte_at(s: &[u8], at: usize) -> u8
    ensures { result ≡ get_or s.now at 0 }
{
    s.get(at).copied().unwrap_or(0)
}

// RFC 3629, section 4: UTF8-tail, a byte that goes on with a character and begins none.
pub fn is_tail(b: u8) -> bool
    ensures { result ≡ tail b }
{
    matches!(b, 0x80..=0xBF)
}

// RFC 3629, section 4: UTF8-2.
fn is_two(a: u8, b: u8) -> bool
    ensures { result ≡ two a b }
{
    matches!(a, 0xC2..=0xDF) && is_tail(b)
}

// RFC 3629, section 4: UTF8-3.
fn is_three(a: u8, b: u8, c: u8) -> bool
    ensures { result ≡ three a b c }
{
    let lead = matches!(
        (a, b),
        (0xE0, 0xA0..=0xBF)
            | (0xE1..=0xEC, 0x80..=0xBF)
            | (0xED, 0x80..=0x9F)
            | (0xEE..=0xEF, 0x80..=0xBF)
    );
    lead && is_tail(c)
}

// RFC 3629, section 4: UTF8-4.
fn is_four(a: u8, b: u8, c: u8, d: u8) -> bool
    ensures { result ≡ four a b c d }
{
    let lead = matches!(
        (a, b),
        (0xF0, 0x90..=0xBF) | (0xF1..=0xF3, 0x80..=0xBF) | (0xF4, 0x80..=0x8F)
    );
    lead && is_tail(c) && is_tail(d)
}

// RFC 3629, section 3: the bits of three bytes that make a code point. Each bit field is a remainder, which the prover computes with.
fn join_3(a: u8, b: u8, c: u8) -> u32
    ensures { result ≡ a % 16 * 4096 + b % 64 * 64 + c % 64 }
{
    (a as u32) % 16 * 4096 + (b as u32) % 64 * 64 + (c as u32) % 64
}

// RFC 3629, section 3: the bits of four bytes.
fn join_4(a: u8, b: u8, c: u8, d: u8) -> u32
    ensures { result ≡ a % 8 * 262144 + b % 64 * 4096 + c % 64 * 64 + d % 64 }
{
    (a as u32) % 8 * 262144 + (b as u32) % 64 * 4096 + (c as u32) % 64 * 64 + (d as u32) % 64
}

// RFC 3629, section 4: the alternatives in order.
#[tactic(auto, using(crate::proofs::Decoding::forms))]
fn decode(a: u8, b: u8, c: u8, d: u8) -> Option<Point>
    ensures { seen result ≡ decode4 a b c d }
{
    if a < 0x80 {
        return Some(Point {
            code: u32::from(a),
            width: 1,
        });
    }
    if is_two(a, b) {
        return Some(Point {
            code: u32::from(a) % 32 * 64 + u32::from(b) % 64,
            width: 2,
        });
    }
    if is_three(a, b, c) {
        return Some(Point {
            code: join_3(a, b, c),
            width: 3,
        });
    }
    if is_four(a, b, c, d) {
        return Some(Point {
            code: join_4(a, b, c, d),
            width: 4,
        });
    }
    None
}

// The code point at the front of a text, and its width.
#[tactic(auto, using(crate::proofs::Decoding::places))]
fn first_point(t: &[u8]) -> Option<Point>
    ensures { seen result ≡ decode1 t.now }
{
    let a = *t.first()?;
    // most text: no look at the bytes that follow
    if a < 0x80 {
        return Some(Point {
            code: u32::from(a),
            width: 1,
        });
    }
    decode(a, byte_at(t, 1), byte_at(t, 2), byte_at(t, 3))
}

// The code point that stands at a place, and its width. The rest is handed over as a part: whoever hands on its own text first copies its
// place and length, which the processor waits for. With `s.get(at..)?` for the test and the part, ASCII takes 57 percent more instructions.
#[tactic(auto, using(crate::proofs::Decoding::places))]
pub fn code_point(s: &[u8], at: usize) -> Option<Point>
    ensures { seen result ≡ decode1 (drop at s.now) }
{
    if s.len() <= at {
        return None;
    }
    first_point(&s[at..])
}

// The text decoded from its front: where it stops being UTF-8, which is its end if it is UTF-8.
#[tactic(auto, using(crate::proofs::Decoding::fronts))]
pub fn text_end(s: &[u8]) -> usize
    ensures { result ≡ stop_of (utf8 s.now) }
{
    let mut end = 0;
    while let Some(p) = code_point(s, end) {
        end += p.width;
    }
    end
}

// What decides where the quick tests do not.
#[tactic(auto, using(crate::proofs::Decoding::fronts))]
fn decoded(s: &[u8]) -> bool
    ensures { result ≡ accepts (utf8 s.now) }
{
    text_end(s) == s.len()
}

// Whether a byte is 0x80 or more. No early exit, so that the compiler takes many bytes at once; so in `wrong_windows`. By `any` it takes 17 times
// the instructions.
#[tactic(auto, using(crate::proofs::Windows::high_valid))]
fn high(s: &[u8]) -> bool
    ensures { result ≡ false → true ≡ accepts (utf8 s.now) }
{
    s.iter()
        .copied()
        .fold(false, |found, b| found | (0x80 <= b))
}

// Whether a tail is due after the bytes x, y and z.
fn is_due(x: u8, y: u8, z: u8) -> bool
    ensures { result ≡ due x y z }
{
    (0xC0 <= z) | (0xE0 <= y) | (0xF0 <= x)
}

// Whether b is out of place after the bytes x, y and z.
#[tactic(auto, using(crate::proofs::Windows::off_by))]
fn wrong(x: u8, y: u8, z: u8, b: u8) -> bool
    ensures { result ≡ off x y z b }
{
    (is_tail(b) != is_due(x, y, z))
        | (b == 0xC0)
        | (b == 0xC1)
        | (0xF5 <= b)
        | (z == 0xE0) & (b < 0xA0)
        | (z == 0xED) & (0xA0 <= b)
        | (z == 0xF0) & (b < 0x90)
        | (z == 0xF4) & (0x90 <= b)
}

// Whether one of a text's first three bytes is out of place.
fn wrong_front(a: u8, b: u8, c: u8) -> bool
    ensures { result ≡ off 0 0 0 a || off 0 0 a b || off 0 a b c }
{
    wrong(0, 0, 0, a) | wrong(0, 0, a, b) | wrong(0, a, b, c)
}

// Whether a byte is out of place after the three before it.
fn wrong_windows(s: &[u8]) -> bool
    ensures { result ≡ false → InPlace s.now }
{
    let mut bad = false;
    for [x, y, z, b] in s.array_windows::<4>() {
        bad |= wrong(*x, *y, *z, *b);
    }
    bad
}

// The same of a text of a block or more, a block at a time. The last block is the text's end, and may look at windows of the one before.
fn wrong_blocks(s: &[u8]) -> bool
    requires { 19 ≤ length s.now }
    ensures { result ≡ false → InPlace s.now }
{
    if LONG <= s.len() {
        return wrong_windows(s);
    }
    let mut bad = wrong_windows(&s[s.len() - BLOCK..]);
    let mut rest = s;
    while BLOCK < rest.len() {
        bad |= wrong_windows(&rest[..BLOCK]);
        rest = &rest[STEP..];
    }
    bad
}

// A text too short for a block, after three bytes 0 and before others. Byte by byte, as in `copy_from_slice` the compiler calls C's memcpy,
// which the archive for C does without.
fn padded(s: &[u8]) -> [u8; 22]
    ensures { Padded s.now result }
{
    let mut t = [0; 22];
    for i in 0..19 {
        t[i + 3] = byte_at(s, i);
    }
    t
}

// Whether a byte of a text too short for a block is out of place, or one is due at its end: there a byte 0 is. By windows one at a time
// 15 bytes take twice as long. `padded` stands in both branches, as the compiler copies 16 bytes at once where it knows of so many.
fn unfit_few(s: &[u8]) -> bool
    requires { length s.now < 19 }
    ensures { result ≡ false → true ≡ accepts (utf8 s.now) }
{
    if s.len() < STEP {
        let t = padded(s);
        return wrong_windows(&t[..BLOCK]);
    }
    let t = padded(s);
    wrong_windows(&t[..BLOCK]) | wrong_windows(&t[3..])
}

// Whether a byte is out of place, or one is due at the end. Fewer bytes than a block are not looked at, and count as unfit.
#[tactic(auto, using(crate::proofs::Windows::in_place_valid))]
fn unfit(s: &[u8]) -> bool
    ensures { result ≡ false → true ≡ accepts (utf8 s.now) }
{
    if s.len() < BLOCK {
        return true;
    }
    let ([a, b, c, ..], [.., x, y, z]) = (s, s) else {
        return true;
    };
    wrong_front(*a, *b, *c) | is_due(*x, *y, *z) | wrong_blocks(s)
}

// Whether a part is UTF-8: two quick tests that say yes, and the slow one where they do not. The test of a short text is called here and not
// in `unfit`, which first saves registers that it does not need.
fn is_valid_part(s: &[u8]) -> bool
    ensures { result ≡ accepts (utf8 s.now) }
{
    if !high(s) {
        return true;
    }
    if s.len() < SHORT {
        return decoded(s);
    }
    let is_unfit = if s.len() < BLOCK {
        unfit_few(s)
    } else {
        unfit(s)
    };
    !is_unfit || decoded(s)
}

// Whether a text is UTF-8: blocks of ASCII are passed over, and what stands between them is looked at in windows, part by part. A part
// ends where a character seems to end; in a text where it does not, the windows find a fault, and the rest is decoded.
#[tactic(auto, using(crate::proofs::Parts::parts))]
pub fn is_valid(s: &[u8]) -> bool
    ensures { result ≡ accepts (utf8 s.now) }
{
    let mut rest = s;
    let mut size = FEW;
    while size < rest.len() {
        let k = skip_blocks(rest, 0);
        if 0 < k {
            if CALM <= k {
                size = FEW;
            }
            rest = &rest[k..];
            continue;
        }
        let (part, after) = rest.split_at(cut(rest, size));
        if unfit(part) {
            return decoded(rest);
        }
        rest = after;
        size = MANY;
    }
    is_valid_part(rest)
}
