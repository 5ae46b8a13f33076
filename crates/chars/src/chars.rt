// Characters: is_xml_char, check_suspect_byte and check_chars of wellformed.rs.
ghost use Rattle.std.specs.Prelude.{◌≡◌, false, length, drop, Ok};
ghost use Rattle.spec.specs.Grammar.Characters.{xml_char};
ghost use Rattle.spec.specs.Reading.Readers.{ok, number_of, stop_of, a_byte};
ghost use Rattle.spec.specs.Reading.Wellformed.{illegal_here, legal_byte, check_chars};
ghost use Rattle.error.specs.Read.{said, read, code};
ghost use Rattle.chars.specs.Bytes.{suspect};
ghost use Rattle.chars.specs.Rules.{steady_legal};

use crate::rules::{Rule, admitted, walk};
use error::{Answer, Refusal, Verdict};
use search::at_keyword;

// Production 2, Char: the wide range of most characters, and of most references, first. By `matches!` a walk over legal characters is slower:
// in a coding of one byte (crate `encodings`) it takes 2.5 times as long.
#[tactic(auto, using(crate::proofs::Bytes::bytes))]
pub fn is_xml_char(c: u32) -> bool
    ensures { result ≡ xml_char c }
{
    if (0x20 <= c) & (c <= 0xD7FF) {
        return true;
    }
    (c == 0x9)
        | (c == 0xA)
        | (c == 0xD)
        | (0xE000 <= c) & (c <= 0xFFFD)
        | (0x10000 <= c) & (c <= 0x10FFFF)
}

// CHAR_SUSPECT by compares, so that a loop over it becomes vector code.
#[tactic(auto, using(crate::proofs::Bytes::bytes))]
pub fn is_suspect(b: u8) -> bool
    ensures { result ≡ suspect b }
{
    (b < 0x20) & !((b == 0x9) | (b == 0xA) | (b == 0xD)) | (b == 0xEF)
}

// The place after the next byte; at the end there is none.
#[tactic(auto, using(crate::proofs::Bytes::bytes))]
pub fn next_byte(s: &[u8], i: usize) -> usize
    ensures { said (Ok result) ≡ read a_byte s.now i }
{
    if i < s.len() {
        return i + 1;
    }
    i
}

// Whether an illegal character begins here: 0xEF begins U+FFFE and U+FFFF, and legal characters too.
#[tactic(auto, using(crate::proofs::Bytes::bytes))]
fn is_illegal_at(s: &[u8], i: usize) -> bool
    ensures { result ≡ illegal_here (drop i s.now) }
{
    if s.len() <= i {
        return false;
    }
    if s[i] == 0xEF {
        return at_keyword(s, i, b"\xEF\xBF\xBE") | at_keyword(s, i, b"\xEF\xBF\xBF");
    }
    is_suspect(s[i])
}

// On any byte, also one that is not suspect; at the end nothing is refused.
#[tactic(auto, using(crate::proofs::Bytes::bytes), unfolding(spec::specs::Reading::Wellformed::legal_byte))]
pub fn check_suspect_byte(s: &[u8], i: usize) -> Answer
    ensures { said result ≡ read legal_byte s.now i }
{
    if is_illegal_at(s, i) {
        return Err(Refusal::IllegalChar.at(i));
    }
    Ok(next_byte(s, i))
}

// The pass that accepts most texts: it stops nowhere, so that it becomes vector code.
#[tactic(auto, using(crate::proofs::Checks::calm_pass))]
fn any_suspect(text: &[u8]) -> bool
    ensures { result ≡ false → check_chars text.now ≡ ok (length text.now) }
{
    let mut found = false;
    for b in text {
        found = found | is_suspect(*b);
    }
    found
}

// check_chars looks at suspect bytes alone. It has no mark of its own: 0xEF is suspect anyway.
pub struct Legal;

impl Rule for Legal {
    ghost MARK = { 0xEF };

    const MARK: u8 = 0xEF;

    ghost reader = { legal_byte };

    ghost steady = { steady_legal 0xEF };

    fn step(s: &[u8], at: usize) -> Answer {
        check_suspect_byte(s, at)
    }
}

// check_chars on any bytes, without the two refusals that come first. The walk decides where a suspect byte stands.
#[tactic(auto, unfolding(spec::specs::Reading::Wellformed::check_chars))]
pub fn chars_admitted(text: &[u8]) -> Verdict
    ensures { code result ≡ number_of (check_chars text.now) }
{
    if any_suspect(text) {
        return admitted::<Legal>(text);
    }
    Ok(())
}

// The first byte of the first illegal character, or the text's end.
pub fn chars_end(text: &[u8]) -> usize
    ensures { result ≡ stop_of (check_chars text.now) }
{
    if !any_suspect(text) {
        return text.len();
    }
    match walk::<Legal>(text, 0) {
        Ok(end) => end,
        Err(fault) => fault.place,
    }
}
