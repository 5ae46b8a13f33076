// How far a text can be read in a coding: to the first byte that begins no character of it. What is read of a document are Chars ([2]),
// so a NUL or half a character ends it as the end of the file does.
// Text and coding stay two parameters: a struct of them would be taken apart at once, since each arm below wants the text alone.
ghost use Rattle.std.specs.Prelude.{◌≡◌};
ghost use Rattle.spec.specs.Grammar.Characters.{xml_char};
ghost use Rattle.spec.specs.Grammar.Encodings.{in_bytes, class_of};
ghost use Rattle.spec.specs.Reading.Document.{legal_length};
ghost use Rattle.spec.specs.Reading.Readers.{run};
ghost use Rattle.encodings.specs.Codings.{of};

use crate::codings::Coding;
use chars::{chars_end, is_xml_char};
use search::{Class, past_run};
use utf8::{is_valid, text_end};

// In UTF-8. Two quick passes over the whole, where it is UTF-8; only where it is not, it is decoded up to there.
#[tactic(auto, using(crate::proofs::Reached::legal))]
fn utf8_end(text: &[u8]) -> usize
    ensures { result ≡ legal_length xml_char text.now }
{
    if is_valid(text) {
        return chars_end(text);
    }
    let end = text_end(text);
    chars_end(&text[0..end])
}

// A Char of ASCII.
struct AsciiChar;

impl Class for AsciiChar {
    ghost class = { λ _. class_of in_bytes };

    #[tactic(auto, using(crate::proofs::Reached::legal))]
    fn has(&self, b: u8) -> bool {
        b < 0x80 && is_xml_char(u32::from(b))
    }
}

// In a coding that has only ASCII in common with UTF-8. (As ascii_len of names it is one call with a class of its own.)
fn ascii_end(text: &[u8]) -> usize
    ensures { result ≡ run (class_of in_bytes) text.now }
{
    past_run(text, 0, &AsciiChar)
}

// In any coding. Of a foreign one nothing is read. (The coding is a value that the text tells, so this is a match and no type parameter.)
#[tactic(auto, using(crate::proofs::Reached::legal))]
pub fn legal_end(text: &[u8], coding: Coding) -> usize
    ensures { result ≡ legal_length (class_of (of coding)) text.now }
{
    match coding {
        Coding::Utf8 => utf8_end(text),
        Coding::Bytes => ascii_end(text),
        Coding::Foreign => 0,
    }
}
