// Fixed words and the end of a text: eat_str and at_end of dtd.rs.
ghost use Rattle.std.specs.Prelude.{◌≡◌};
ghost use Rattle.spec.specs.Reading.Refusals.{trailing};
ghost use Rattle.spec.specs.Reading.Readers.{at_end};
ghost use Rattle.error.specs.Read.{reason, said, read, eaten};

use error::{Answer, Refusal};
use search::at_keyword;

// The place after the word, or the refusal that the caller gives.
#[tactic(auto, using(crate::proofs::Eating::eating))]
pub fn eat_str(s: &[u8], at: usize, kw: &[u8], refusal: Refusal) -> Answer
    ensures { said result ≡ eaten kw.now (reason refusal) s.now at }
{
    if at_keyword(s, at, kw) {
        return Ok(at + kw.len());
    }
    Err(refusal.at(at))
}

// Nothing is left to read.
#[tactic(auto, using(crate::proofs::Eating::eating))]
pub fn at_end(s: &[u8], at: usize) -> Answer
    ensures { said result ≡ read (at_end trailing) s.now at }
{
    if at < s.len() {
        return Err(Refusal::Trailing.at(at));
    }
    Ok(at)
}
