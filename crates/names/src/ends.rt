// How far the name characters at the front of a text go, and the same at a place in one.
// Text, place and names stay three parameters (classes/src/lib.rt says why).
ghost use Rattle.std.specs.Prelude.{◌≡◌, ◌+◌, drop};
ghost use Rattle.spec.specs.Reading.Readers.{taken};
ghost use Rattle.spec.specs.Reading.Wellformed.{parts, name_length};
ghost use Rattle.classes.specs.Classes.{ascii_part, dialect};
ghost use Rattle.names.specs.Names.{AsciiRun};
ghost use Rattle.names.specs.NamePart.{NamePart};

use classes::{Names, ascii_name_char, ascii_name_start, is_name_char, is_name_start_char};
use search::{Class, past_run};
use utf8::code_point;

// NameChar below 128.
struct AsciiNameChar;

impl Class for AsciiNameChar {
    ghost class = { λ _. ascii_part };

    fn has(&self, b: u8) -> bool {
        ascii_name_char(b)
    }
}

// The name characters below 128: up to their end, or up to a byte that wants decoding. Most names are ASCII, and this decodes nothing.
// (As ascii_end of encodings it is one call with a class of its own.)
fn ascii_len(s: &[u8]) -> usize
    ensures { AsciiRun s.now result }
{
    past_run(s, 0, &AsciiNameChar)
}

// All name characters, decoded where a byte is 128 or more. The place moves by each character's width, which no iterator over bytes does.
#[tactic(auto, using(crate::proofs::PlaceLaws::loops))]
fn decoded_len(s: &[u8], names: Names) -> usize
    ensures { result ≡ taken (parts (dialect names) s.now) }
{
    let mut i: usize = 0;
    while let Some(&b) = s.get(i) {
        // to decode these too takes a quarter more instructions in French
        if b < 128 {
            if !ascii_name_char(b) {
                return i;
            }
            i += 1;
            continue;
        }
        match code_point(s, i) {
            Some(p) if is_name_char(names, p.code) => i += p.width,
            _ => return i,
        }
    }
    i
}

// All name characters, the (NameChar)* of [5] Name and [7] Nmtoken.
#[tactic(auto, using(crate::proofs::PlaceLaws::asciis))]
fn chars_len(s: &[u8], names: Names) -> usize
    ensures { result ≡ taken (parts (dialect names) s.now) }
{
    let n = ascii_len(s);
    if n < s.len() && 128 <= s[n] {
        n + decoded_len(&s[n..], names)
    } else {
        n
    }
}

// The name, [5] Name: nothing where none begins.
#[tactic(auto, using(crate::proofs::PlaceLaws::firsts))]
fn name_len(s: &[u8], names: Names) -> usize
    ensures { result ≡ name_length (dialect names) s.now }
{
    let Some(&b) = s.first() else {
        return 0;
    };
    if b < 128 {
        return if ascii_name_start(b) {
            1 + chars_len(&s[1..], names)
        } else {
            0
        };
    }
    // such a name is seldom ASCII in the rest
    match code_point(s, 0) {
        Some(p) if is_name_start_char(names, p.code) => p.width + decoded_len(&s[p.width..], names),
        _ => 0,
    }
}

// The end of the name characters from `at` on.
#[tactic(auto, using(crate::proofs::PlaceLaws::rests))]
pub fn name_chars_end(s: &[u8], at: usize, names: Names) -> usize
    ensures { result ≡ at + taken (parts (dialect names) (drop at s.now)) }
{
    match s.get(at..) {
        Some(rest) => at + chars_len(rest, names),
        None => at,
    }
}

// The end of the name at `at`: `at` itself where none begins. (One function for both productions would take the other as a closure, and be as
// long.)
#[tactic(auto, using(crate::proofs::PlaceLaws::rests))]
pub fn name_end(s: &[u8], at: usize, names: Names) -> usize
    ensures { result ≡ at + name_length (dialect names) (drop at s.now) }
{
    match s.get(at..) {
        Some(rest) => at + name_len(rest, names),
        None => at,
    }
}

// The name at `at`, a part of the text: empty where none begins.
#[tactic(auto, using(crate::proofs::PlaceLaws::whole))]
pub fn parse_name(s: &[u8], at: usize, names: Names) -> &[u8]
    ensures { NamePart (dialect names) (drop at s.now) result.now }
{
    match s.get(at..) {
        Some(rest) => &rest[..name_len(rest, names)],
        None => &[],
    }
}
