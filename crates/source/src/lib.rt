// source.rs: what stands in front of every public call.
#![tactic(auto)]

ghost use Rattle.std.specs.Prelude.{◌≡◌, ◌==◌};
ghost use Rattle.spec.specs.Grammar.Characters.{Text};
ghost use Rattle.spec.specs.Reading.Readers.{nothing};
ghost use Rattle.spec.specs.Reading.Source.{admit, checked};
ghost use Rattle.spec.specs.Promises.{Tells};
ghost use Rattle.error.specs.Read.{code, said, read};

use error::{Answer, Refusal, Verdict};
use utf8::{is_valid, text_end};

// A part of a text: its first place, and the place after its last byte.
#[derive(Clone, Copy, Debug, PartialEq, Eq)]
pub struct Span {
    pub start: usize,
    pub end: usize,
}

// The longest text that is looked at.
const LIMIT: usize = 1_048_576;

// 1 before 2, and neither where the text may be looked at. (By admit_at without its place, which was tried, a text of ASCII whose last byte is
// no UTF-8 is refused 80 times slower, one of two-byte characters 9 times, which misses the bar: no slower than the Rust. The place is looked
// for by decoding from the text's start.)
#[tactic(auto, using(crate::proofs::Admitting::admitting))]
pub fn admit(text: &[u8]) -> Verdict
    ensures { code result ≡ checked nothing text.now }
{
    if LIMIT < text.len() {
        return Err(Refusal::TooLong);
    }
    if is_valid(text) {
        return Ok(());
    }
    Err(Refusal::NotUtf8)
}

// The same with the place: a text that is too long is refused at its first byte, since it is not looked at.
#[tactic(auto, using(crate::proofs::Placing::placing))]
pub fn admit_at(text: &[u8]) -> Answer
    ensures { said result ≡ read admit text.now 0 }
{
    if LIMIT < text.len() {
        return Err(Refusal::TooLong.at(0));
    }
    if is_valid(text) {
        return Ok(text.len());
    }
    Err(Refusal::NotUtf8.at(text_end(text)))
}

#[tactic(auto, using(crate::proofs::Admitting::admitting))]
pub fn is_utf8(text: &[u8]) -> Verdict
    ensures { Tells Text text.now (code result) (code result == 0) }
{
    admit(text)
}
