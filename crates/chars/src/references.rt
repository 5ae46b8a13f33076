// Character references: check_char_ref_at and check_char_refs of wellformed.rs (production 66).
ghost use Rattle.std.specs.Prelude.{◌≡◌};
ghost use Rattle.spec.specs.Reading.Wellformed.{reference, char_ref, ref_or_byte, check_char_refs};
ghost use Rattle.error.specs.Read.{said, read};
ghost use Rattle.chars.specs.References.{reference_said};
ghost use Rattle.chars.specs.Rules.{steady_refs};

use crate::chars::{is_xml_char, next_byte};
use crate::digits::{Base, Decimal, Hex, read_digits};
use crate::rules::{Rule, walk};
use error::{Answer, Refusal};
use search::at_keyword;

// What follows "&#" or "&#x": a digit or more, then ';', and the value is that of a Char. A refusal comes without a place: that is where the
// reference begins, not `at`.
#[inline(always)]
#[tactic(auto, using(crate::proofs::CharRefs::char_refs))]
fn check_digits<B: Base>(s: &[u8], at: usize, base: &B) -> Result<usize, Refusal>
    ensures { reference_said result at ≡ read (reference B.BASE (B.class base.now)) s.now at }
{
    let d = read_digits(s, at, base);
    if d.count == 0 {
        return Err(Refusal::BadReference);
    }
    let end = at + d.count;
    if !at_keyword(s, end, b";") {
        return Err(Refusal::BadReference);
    }
    if is_xml_char(d.value) {
        return Ok(end + 1);
    }
    Err(Refusal::IllegalReference)
}

// Only a lower-case x introduces a hexadecimal reference.
#[inline(always)]
#[tactic(auto, using(crate::proofs::CharRefs::char_refs))]
fn char_ref_end(s: &[u8], at: usize) -> Result<usize, Refusal>
    ensures { reference_said result at ≡ read char_ref s.now at }
{
    if at_keyword(s, at, b"&#x") {
        return check_digits(s, at + 3, &Hex);
    }
    if at_keyword(s, at, b"&#") {
        return check_digits(s, at + 2, &Decimal);
    }
    Err(Refusal::BadReference)
}

// Production 66. A bad reference is refused where it begins.
#[inline(always)]
#[tactic(auto, using(crate::proofs::CharRefs::char_refs))]
pub fn check_char_ref_at(s: &[u8], at: usize) -> Answer
    ensures { said result ≡ read char_ref s.now at }
{
    char_ref_end(s, at).map_err(|refusal| refusal.at(at))
}

// '&' without '#' goes unchecked.
#[inline(always)]
#[tactic(auto, using(crate::proofs::CharRefs::char_refs), unfolding(spec::specs::Reading::Wellformed::ref_or_byte))]
fn ref_or_byte(s: &[u8], i: usize) -> Answer
    ensures { said result ≡ read ref_or_byte s.now i }
{
    if at_keyword(s, i, b"&#") {
        return check_char_ref_at(s, i);
    }
    Ok(next_byte(s, i))
}

// check_char_refs looks at '&', which is its mark.
pub struct References;

impl Rule for References {
    ghost MARK = { 0x26 };

    const MARK: u8 = b'&';

    ghost reader = { ref_or_byte };

    ghost steady = { steady_refs };

    #[inline(always)]
    fn step(s: &[u8], at: usize) -> Answer {
        ref_or_byte(s, at)
    }
}

// The references from `at` on.
#[tactic(auto, unfolding(spec::specs::Reading::Wellformed::check_char_refs))]
pub fn walk_char_refs(text: &[u8], at: usize) -> Answer
    ensures { said result ≡ read check_char_refs text.now at }
{
    walk::<References>(text, at)
}
