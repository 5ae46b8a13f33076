// What a text ends at, where it can be read no further.
ghost use Rattle.std.specs.Prelude.{◌≡◌};
ghost use Rattle.spec.specs.Basics.{pick};
ghost use Rattle.spec.specs.Reading.Refusals.{too_long, unterminated};
ghost use Rattle.spec.specs.Reading.Verdict.{end_refusal};
ghost use Rattle.error.specs.Read.{reason};
ghost use Rattle.encodings.specs.Codings.{of};
ghost use Rattle.encodings.specs.Ends.{strange_at};

use crate::codings::Coding;
use crate::legal::legal_end;
use error::Refusal;
use utf8::code_point;

// What stands there is no character of the coding: bytes that are no UTF-8, or not in this coding, or a character that is no Char.
#[tactic(auto, using(crate::proofs::Ending::strange))]
fn strange(text: &[u8], at: usize, coding: Coding) -> Refusal
    ensures { reason result ≡ strange_at (of coding) at text.now }
{
    let Some(p) = code_point(text, at) else {
        return Refusal::NotUtf8;
    };
    match coding {
        Coding::Utf8 => Refusal::IllegalChar,
        Coding::Bytes => {
            if p.code < 0x80 {
                Refusal::IllegalChar
            } else {
                Refusal::NotUtf8
            }
        }
        Coding::Foreign => Refusal::NotUtf8,
    }
}

// Nothing stands there: the text ends, or what is held of it does.
#[tactic(auto, using(crate::proofs::Ending::ending))]
fn cut(whole: bool) -> Refusal
    ensures { reason result ≡ pick whole unterminated too_long }
{
    if whole {
        Refusal::Unterminated
    } else {
        Refusal::TooLong
    }
}

// What stands at the legal end, or that the text ends there. Of a text that may go on, the last three bytes are not judged: they may be
// part of a character.
#[tactic(auto, using(crate::proofs::Ending::ending))]
pub fn end_refusal(text: &[u8], coding: Coding, whole: bool) -> Refusal
    ensures { reason result ≡ end_refusal (of coding) whole text.now }
{
    let at = legal_end(text, coding);
    if text.len() <= at {
        return cut(whole);
    }
    if whole {
        return strange(text, at, coding);
    }
    if text.len() - at < 4 {
        return cut(whole);
    }
    strange(text, at, coding)
}
