// Character data and attribute values: check_text and check_attr_value of wellformed.rs.
ghost use Rattle.std.specs.Prelude.{◌≡◌};
ghost use Rattle.spec.specs.Reading.Wellformed.{text_step, attr_step};
ghost use Rattle.error.specs.Read.{said, read, reason};
ghost use Rattle.wellformed.specs.Rules.{without, steady_text, steady_attr};

use chars::{Rule, check_char_ref_at, check_suspect_byte};
use error::{Answer, Refusal};
use search::at_keyword;

// Legal characters and references, and the word is refused where it begins. (Put into the loop, with all that reads a reference: docs/DECISIONS.md.)
#[inline(always)]
#[tactic(auto, using(chars::proofs::CharRefs::char_refs))]
fn step_without(word: &[u8], refusal: Refusal, s: &[u8], at: usize) -> Answer
    ensures { said result ≡ read (without word.now (reason refusal)) s.now at }
{
    if at_keyword(s, at, word) {
        return Err(refusal.at(at));
    }
    if at_keyword(s, at, b"&#") {
        return check_char_ref_at(s, at);
    }
    check_suspect_byte(s, at)
}

// The two rules are an instance of the trait each: what they share is step_without. CharData has no "]]>" (production 14). It is refused where
// it begins; the Rust sees it where it ends, and gives the same number.
pub struct Text;

impl Rule for Text {
    ghost MARK = { 0x5D };

    const MARK: u8 = b']';

    ghost reader = { text_step };

    ghost steady = { steady_text };

    #[inline(always)]
    #[tactic(auto, unfolding(spec::specs::Reading::Readers::on, spec::specs::Reading::Wellformed::text_step))]
    fn step(s: &[u8], at: usize) -> Answer {
        step_without(b"]]>", Refusal::SectionEnd, s, at)
    }
}

// AttValue has no '<' (production 10).
pub struct AttrValue;

impl Rule for AttrValue {
    ghost MARK = { 0x3C };

    const MARK: u8 = b'<';

    ghost reader = { attr_step };

    ghost steady = { steady_attr };

    #[inline(always)]
    #[tactic(auto, unfolding(spec::specs::Reading::Readers::on, spec::specs::Reading::Wellformed::attr_step))]
    fn step(s: &[u8], at: usize) -> Answer {
        step_without(b"<", Refusal::LessThan, s, at)
    }
}
