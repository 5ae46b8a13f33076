// Everything up to a fixed word: the text of a comment, of an instruction or of an XML declaration.
ghost use Rattle.std.specs.Prelude.{◌≡◌};
ghost use Rattle.spec.specs.Grammar.Languages.{ascii};
ghost use Rattle.spec.specs.Reading.Refusals.{unterminated};
ghost use Rattle.spec.specs.Reading.Readers.{up_to};
ghost use Rattle.error.specs.Read.{said, read};
ghost use Rattle.cursor.specs.Words.{Word};

use crate::reads::Reads;
use error::{Answer, Refusal};
use search::find;

// To the first `end`, and past it. The check of what stands before it is handed the text's front part, so its places are the text's.
#[tactic(auto, using(crate::proofs::UpTo::upwards))]
pub fn parse_up_to<C: Reads>(s: &[u8], at: usize, end: &[u8], check: &C) -> Answer
    ensures { (k : Word) → end.now ≡ ascii k → said result ≡ read (up_to k unterminated (C.reader check.now)) s.now at }
{
    let j = find(s, at, end).ok_or(Refusal::Unterminated.at(at))?;
    check.read(&s[0..j], at)?;
    Ok(j + end.len())
}
